//! How the time of operators grows with the size of their values.

ghost use Rattle.std.specs.Prelude.{IfOk};
ghost use Rattle.gx_json.specs.Tree.{data_of};
ghost use Rattle.gx_json.specs.Valid.{IsDocument};

use gx_bytes::{Bytes, NoMemory, ValueError};
use gx_hstore::Hstore;
use gx_intarr::IntArray;
use gx_json::Json;
use std::alloc::Global;
use std::io;
use std::rt::Clock;
use std::time::Instant;

const ROUNDS: u32 = 10;

pub fn run<R: Clock + Print + AllocGlobal>(rt: &R) -> io::Result<()> {
    println!(rt;
        "growth: microseconds for {ROUNDS} calls, each on two equal values of so many entries"
    )?;
    for size in [2_000, 20_000, 200_000] {
        arrays(rt, rt.alloc(), size)?;
        maps(rt, rt.alloc(), size)?;
        documents(rt, rt.alloc(), size)?;
    }
    Ok(())
}

/// So many different numbers in no order: the entry at this place.
fn entry(at: i32) -> i32 {
    at.wrapping_mul(7919) % 1_000_003
}

fn array_of(alloc: Global, size: i32) -> Result<IntArray, NoMemory> {
    let mut items = Vec::new(alloc);
    for at in 0..size {
        items.push(entry(at))?;
    }
    IntArray::from_items(alloc, items)
}

fn arrays<R: Clock + Print>(rt: &R, alloc: Global, size: i32) -> io::Result<()> {
    let (Ok(array), Ok(other)) = (array_of(alloc, size), array_of(alloc, size)) else {
        return Ok(());
    };
    let mut found = 0u32;
    let start = Instant::now(rt)?;
    for _ in 0..ROUNDS {
        found = found.wrapping_add(u32::from(array.contains(&other)));
    }
    let contains = start.elapsed(rt)?.as_micros();
    let start = Instant::now(rt)?;
    for _ in 0..ROUNDS {
        found = found.wrapping_add(u32::from(array.same(&other)));
    }
    let same = start.elapsed(rt)?.as_micros();
    println!(rt; "int4[] {size}: @> {contains}, = {same}, true {found}")
}

fn map_text(alloc: Global, size: i32) -> Result<String, NoMemory> {
    let mut text = String::new(alloc);
    for at in 0..size {
        text.push_str(format!(in alloc; "k{}=>v,", entry(at))?.as_str())?;
    }
    Ok(text)
}

fn map_of(alloc: Global, size: i32) -> Result<Hstore, ValueError> {
    let Ok(text) = map_text(alloc, size) else {
        return Err(ValueError::Memory);
    };
    Hstore::read(alloc, text.as_str())
}

fn maps<R: Clock + Print>(rt: &R, alloc: Global, size: i32) -> io::Result<()> {
    let (Ok(map), Ok(other)) = (map_of(alloc, size), map_of(alloc, size)) else {
        return Ok(());
    };
    let mut found = 0u32;
    let start = Instant::now(rt)?;
    for _ in 0..ROUNDS {
        found = found.wrapping_add(u32::from(map.contains(&other)));
    }
    let contains = start.elapsed(rt)?.as_micros();
    let start = Instant::now(rt)?;
    for _ in 0..ROUNDS {
        found = found.wrapping_add(u32::from(map.has(b"k7919")));
    }
    let has = start.elapsed(rt)?.as_micros();
    println!(rt; "hstore {size}: @> {contains}, ? {has}, true {found}")
}

fn document_text(alloc: Global, size: i32) -> Result<String, NoMemory> {
    let mut text = String::new(alloc);
    let mut before = '{';
    for at in 0..size {
        text.push_str(format!(in alloc; "{before}\"k{}\":{at}", entry(at))?.as_str())?;
        before = ',';
    }
    text.push('}')?;
    Ok(text)
}

fn document_of(alloc: Global, size: i32) -> Result<Json, ValueError>
    ensures { IfOk result (λ json. IsDocument (data_of json)) }
{
    let Ok(text) = document_text(alloc, size) else {
        return Err(ValueError::Memory);
    };
    Json::read(alloc, text.as_str())
}

fn documents<R: Clock + Print>(rt: &R, alloc: Global, size: i32) -> io::Result<()> {
    let (Ok(json), Ok(other)) = (document_of(alloc, size), document_of(alloc, size)) else {
        return Ok(());
    };
    let mut found = 0u32;
    let start = Instant::now(rt)?;
    for _ in 0..ROUNDS {
        found = found.wrapping_add(u32::from(json.contains(&other)));
    }
    let contains = start.elapsed(rt)?.as_micros();
    let start = Instant::now(rt)?;
    for _ in 0..ROUNDS {
        let mut text = Bytes::new(alloc);
        found = found.wrapping_add(u32::from(json.print(&mut text).is_ok()));
    }
    let print = start.elapsed(rt)?.as_micros();
    println!(rt; "jsonb {size}: @> {contains}, print {print}, true {found}")
}
