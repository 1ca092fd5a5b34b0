//! How long inserts and searches take.

use crate::filling::{SEARCHES, insert_rows, make_keys, search_rows};
use crate::samples::Sampled;
use gx_class_inet::InetClass;
use gx_class_ltree::LtreeClass;
use gx_class_range::RangeClass;
use gx_class_scalar::ScalarClass;
use gx_class_sets::HstoreClass;
use gx_gist::GistClass;
use gx_gist_tree::Tree;
use gx_pages::{MemoryPages, Pages};
use gx_scalar::ScalarKind;
use std::io;
use std::rt::Clock;
use std::time::{Duration, Instant};

const INT4: ScalarClass = ScalarClass {
    kind: ScalarKind::Int4,
};

/// Inserts rows into trees of keys of each class, and looks for some of their values.
pub fn trees<R: Clock + Print + AllocGlobal>(rt: &R) -> io::Result<()> {
    println!(rt;
        "trees: nanoseconds a row to make its key, to insert it with that, and a search for one value ({SEARCHES} of them)"
    )?;
    for rows in [10_000, 100_000] {
        of_class(rt, "int4", INT4, rows)?;
        of_class(rt, "int8range", RangeClass, rows)?;
        of_class(rt, "inet", InetClass, rows)?;
        of_class(rt, "ltree", LtreeClass::<8>, rows)?;
        of_class(rt, "hstore", HstoreClass::<16>, rows)?;
    }
    of_class(rt, "int4", INT4, 1_000_000)
}

/// Inserts so many rows into a new tree of this class, looks for some of their values, and prints how long it takes.
fn of_class<R: Clock + Print + AllocGlobal, C: Sampled>(
    rt: &R,
    name: &str,
    class: C,
    rows: u32,
) -> io::Result<()>
where
    C::Value: Drop,
    C::Query: Drop,
    requires { C.valid class }
{
    let Ok(mut pages) = MemoryPages::new(rt.alloc()) else {
        return Ok(());
    };
    let Ok(mut tree) = Tree::create(class, &mut pages) else {
        return Ok(());
    };
    let start = Instant::now(rt)?;
    let made = make_keys(rt.alloc(), &tree.class, rows);
    let keys = start.elapsed(rt)?;
    let start = Instant::now(rt)?;
    let inserted = insert_rows(rt.alloc(), &mut pages, &mut tree, rows);
    let inserts = start.elapsed(rt)?;
    let before = pages.fetches();
    let start = Instant::now(rt)?;
    let found = search_rows(rt.alloc(), &mut pages, &tree, rows);
    let searches = start.elapsed(rt)?;
    let fetches = pages.fetches().wrapping_sub(before);
    println!(rt;
        "{name} {rows}: key {}, insert {}, search {} ({made} keys, {inserted} inserted, {found} found by {fetches} fetches, {} pages)",
        each(keys, rows),
        each(inserts, rows),
        each(searches, SEARCHES),
        pages_of(&mut pages)
    )
}

/// The nanoseconds for one of so many.
fn each(took: Duration, many: u32) -> u128 {
    took.as_nanos().checked_div(u128::from(many)).unwrap_or(0)
}

/// How many pages there are, from page 0 on, where none is free.
fn pages_of(pages: &mut MemoryPages) -> u64 {
    pages.take().unwrap_or(0)
}
