//! Rows of a tree.

ghost use Rattle.std.specs.Prelude.{◌≡◌};

use crate::samples::Sampled;
use gx_gist::GistClass;
use gx_gist_tree::Tree;
use gx_pages::{MemoryPages, RowRef};
use std::alloc::Global;

/// How many values are looked for.
pub const SEARCHES: u32 = 1_000;

/// Makes the key of each row, and tells how many there are.
pub fn make_keys<C: Sampled>(alloc: Global, class: &C, rows: u32) -> u32
where
    C::Value: Drop,
    requires { C.valid class.now }
{
    let mut made = 0u32;
    for number in 0..rows {
        made = made.wrapping_add(u32::from(make_key(alloc, class, number)));
    }
    made
}

/// Whether there is memory for the key of a row.
fn make_key<C: Sampled>(alloc: Global, class: &C, number: u32) -> bool
where
    C::Value: Drop,
    requires { C.valid class.now }
{
    match class.sample(alloc, number) {
        Some(value) => class.leaf(alloc, &value).is_ok(),
        None => false,
    }
}

/// Inserts so many rows, and tells how many inserts went well.
pub fn insert_rows<C: Sampled>(
    alloc: Global,
    pages: &mut MemoryPages,
    tree: &mut Tree<C>,
    rows: u32,
) -> u32
where
    C::Value: Drop,
    requires { C.valid tree.old.class }
    ensures { C.valid tree.new.class }
{
    let mut inserted = 0u32;
    for number in 0..rows {
        inserted = inserted.wrapping_add(u32::from(insert_row(alloc, pages, tree, number)));
    }
    inserted
}

/// Inserts a row, and tells whether that went well.
fn insert_row<C: Sampled>(
    alloc: Global,
    pages: &mut MemoryPages,
    tree: &mut Tree<C>,
    number: u32,
) -> bool
where
    C::Value: Drop,
    requires { C.valid tree.old.class }
    ensures { C.valid tree.new.class }
{
    let Some(value) = tree.class.sample(alloc, number) else {
        return false;
    };
    let Ok(key) = tree.class.leaf(alloc, &value) else {
        return false;
    };
    let row = RowRef {
        number: u64::from(number),
        page: 7,
        slot: 3,
    };
    tree.insert(alloc, pages, row, &key).is_ok()
}

/// Looks for the values of some of so many rows, and tells how many rows are found.
pub fn search_rows<C: Sampled>(
    alloc: Global,
    pages: &mut MemoryPages,
    tree: &Tree<C>,
    rows: u32,
) -> u64
where
    C::Query: Drop,
    requires { C.valid tree.now.class }
{
    let mut found = 0u64;
    for round in 0..SEARCHES {
        let number = round.wrapping_mul(7919).checked_rem(rows).unwrap_or(0);
        found = found.wrapping_add(search_row(alloc, pages, tree, number));
    }
    found
}

/// Looks for the value of a row, and tells how many rows are found.
fn search_row<C: Sampled>(
    alloc: Global,
    pages: &mut MemoryPages,
    tree: &Tree<C>,
    number: u32,
) -> u64
where
    C::Query: Drop,
    requires { C.valid tree.now.class }
{
    let Some(value) = tree.class.sample(alloc, number) else {
        return 0;
    };
    let query = tree.class.point(value);
    match tree.search(alloc, pages, &query) {
        Ok(found) => found.len() as u64,
        Err(_) => 0,
    }
}
