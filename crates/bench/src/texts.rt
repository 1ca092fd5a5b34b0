//! Texts of the types, and what is printed of their values.

use gx_bytes::Bytes;
use gx_hstore::Hstore;
use gx_inet::Inet;
use gx_intarr::IntArray;
use gx_json::Json;
use gx_ltree::Path;
use gx_range::{Range, RangeKind};
use gx_scalar::{Scalar, ScalarKind};
use std::alloc::Global;
use std::io;
use std::rt::Clock;
use std::time::Instant;

const ROUNDS: u32 = 100_000;

/// A type and a text of it.
#[derive(Clone, Copy)]
enum Work {
    Scalar(ScalarKind, &'static str),
    Range(&'static str),
    Inet(&'static str),
    Ltree(&'static str),
    Hstore(&'static str),
    Array(&'static str),
    Json(&'static str),
}

const WORKS: [(&str, Work); 9] = [
    ("int4", Work::Scalar(ScalarKind::Int4, "-2147483648")),
    ("date", Work::Scalar(ScalarKind::Date, "2024-02-29")),
    (
        "uuid",
        Work::Scalar(ScalarKind::Uuid, "a0eebc99-9c0b-4ef8-bb6d-6bb9bd380a11"),
    ),
    ("daterange", Work::Range("[2024-02-29,2024-03-10)")),
    ("inet", Work::Inet("2001:db8::1/64")),
    ("ltree", Work::Ltree("Top.Sport.Hockey.Russia")),
    ("hstore", Work::Hstore("guest=>\"Ada L.\", vip=>NULL")),
    ("int4[]", Work::Array("{1,2,3,40,500}")),
    ("jsonb", Work::Json("{\"id\":7,\"tags\":[\"a\",\"b\"]}")),
];

pub fn run<R: Clock + Print + AllocGlobal>(rt: &R) -> io::Result<()> {
    println!(rt; "texts: microseconds for {ROUNDS} rounds of read and print")?;
    for (name, work) in WORKS {
        let mut done = 0u32;
        let start = Instant::now(rt)?;
        for _ in 0..ROUNDS {
            done = done.wrapping_add(u32::from(once(rt.alloc(), work)));
        }
        let took = start.elapsed(rt)?.as_micros();
        println!(rt; "{name}: {took} (done {done})")?;
    }
    Ok(())
}

/// Reads a text and prints its value; and tells whether both went well.
fn once(alloc: Global, work: Work) -> bool {
    let mut to = Bytes::new(alloc);
    match work {
        Work::Scalar(kind, text) => match Scalar::read(alloc, kind, text) {
            Ok(value) => value.print(&mut to).is_ok(),
            Err(_) => false,
        },
        Work::Range(text) => match Range::read(alloc, RangeKind::Date, text) {
            Ok(value) => value.print(RangeKind::Date, &mut to).is_ok(),
            Err(_) => false,
        },
        Work::Inet(text) => match Inet::read(alloc, text) {
            Ok(value) => value.print(&mut to).is_ok(),
            Err(_) => false,
        },
        Work::Ltree(text) => match Path::read(alloc, text) {
            Ok(value) => value.print(&mut to).is_ok(),
            Err(_) => false,
        },
        Work::Hstore(text) => match Hstore::read(alloc, text) {
            Ok(value) => value.print(&mut to).is_ok(),
            Err(_) => false,
        },
        Work::Array(text) => match IntArray::read(alloc, text) {
            Ok(value) => value.print(&mut to).is_ok(),
            Err(_) => false,
        },
        Work::Json(text) => match Json::read(alloc, text) {
            Ok(value) => value.print(&mut to).is_ok(),
            Err(_) => false,
        },
    }
}
