//! One item of 3,000 rows: from its entry into a posting tree, and away again.

use crate::arrays::{array_of, array_query, row_of};
use gx_gin_arrays::ArrayClass;
use gx_gin_entry::EntryTree;
use gx_gin_scan::Gin;
use gx_pages::{Bitmap, MemoryPages};
use std::alloc::Global;
use std::test::Fail;

// How many rows have the item.
fn count(alloc: Global, pages: &mut MemoryPages, gin: &Gin<ArrayClass>) -> Result<usize, Fail> {
    let query = array_query(alloc, "@>", "{1}")?;
    let rows = gin.search(alloc, pages, &query)?;
    Ok(rows.len())
}

// The first byte of the item's posting: 0 before a list, 1 before the root page of a tree. None where it has no entry.
fn form(alloc: Global, pages: &mut MemoryPages, gin: &Gin<ArrayClass>) -> Result<Option<u8>, Fail> {
    let found = EntryTree::at(gin.root()).get(alloc, pages, &[1, 0x80, 0, 0, 1])?;
    let Some(posting) = found else {
        return Ok(None);
    };
    Ok(posting.as_slice().first().copied())
}

fn insert(
    alloc: Global,
    pages: &mut MemoryPages,
    gin: &mut Gin<ArrayClass>,
    number: u64,
) -> Result<(), Fail> {
    let value = array_of(alloc, "{1}")?;
    gin.insert(alloc, pages, row_of(number), &value)?;
    Ok(())
}

// The hundred rows from this number on.
fn hundred(alloc: Global, first: u64) -> Result<Bitmap, Fail> {
    let mut rows = Bitmap::new(alloc);
    for number in first..first.saturating_add(100) {
        let row = row_of(number);
        if rows.is_below(row.number) {
            rows.push(row)?;
        }
    }
    Ok(rows)
}

#[test]
fn a_long_list_comes_and_goes(rt: HostRuntime) -> Result<(), Fail> {
    let alloc = rt.alloc();
    let mut pages = MemoryPages::new(alloc)?;
    let mut gin = Gin::create(ArrayClass, &mut pages)?;
    for number in 1..3001 {
        insert(alloc, &mut pages, &mut gin, number)?;
        if number == 100 {
            assert_eq!(rt; form(alloc, &mut pages, &gin)?, Some(0));
        }
    }
    assert_eq!(rt; form(alloc, &mut pages, &gin)?, Some(1));
    assert_eq!(rt; count(alloc, &mut pages, &gin)?, 3000);
    for round in 0..30u32 {
        let gone = hundred(alloc, u64::from(round) * 100 + 1)?;
        gin.remove_rows(alloc, &mut pages, &gone)?;
        let left = 2900 - 100 * round as usize;
        assert_eq!(rt; count(alloc, &mut pages, &gin)?, left);
    }
    assert_eq!(rt; form(alloc, &mut pages, &gin)?, None);
    // The pages of its posting tree are taken again.
    let second = Gin::create(ArrayClass, &mut pages)?;
    assert!(rt; second.root() <= 6);
    Ok(())
}
