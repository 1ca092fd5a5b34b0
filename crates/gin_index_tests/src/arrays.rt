//! Searches over an index of arrays.

ghost use Rattle.std.specs.Prelude.{IfOk};
ghost use Rattle.gx_intarr.specs.Arrays.{IsArray};
ghost use Rattle.gx_gin_arrays.specs.Tests.{IsArrayQuery};

use gx_bytes::{Bytes, ValueError};
use gx_gin_arrays::{ArrayClass, IntQuery};
use gx_gin_entry::EntryTree;
use gx_gin_scan::Gin;
use gx_intarr::IntArray;
use gx_pages::{Bitmap, MemoryPages, RowRef};
use gx_posting::push_posting;
use gx_posting_tree::PostingTree;
use std::alloc::Global;
use std::test::Fail;

pub fn array_of(alloc: Global, text: &str) -> Result<IntArray, ValueError>
    ensures { IfOk result IsArray }
{
    IntArray::read(alloc, text)
}

pub fn array_query(alloc: Global, sign: &str, text: &str) -> Result<IntQuery, ValueError>
    ensures { IfOk result IsArrayQuery }
{
    let operand = array_of(alloc, text)?;
    Ok(match sign {
        "&&" => IntQuery::Overlaps(operand),
        "@>" => IntQuery::Contains(operand),
        "<@" => IntQuery::Within(operand),
        _ => IntQuery::Equal(operand),
    })
}

pub fn row_of(number: u64) -> RowRef {
    RowRef {
        number,
        page: 7,
        slot: 3,
    }
}

fn rows_of(alloc: Global, numbers: &[u64]) -> Result<Bitmap, Fail> {
    let mut rows = Bitmap::new(alloc);
    for number in numbers {
        let row = row_of(*number);
        if rows.is_below(row.number) {
            rows.push(row)?;
        }
    }
    Ok(rows)
}

// Byte 0 and the list of these rows.
fn inline(alloc: Global, numbers: &[u64]) -> Result<Bytes, Fail> {
    let mut posting = Bytes::from_slice(alloc, &[0])?;
    let mut last: Option<RowRef> = None;
    for number in numbers {
        let row = row_of(*number);
        let rises = match last {
            Some(before) => before.number < row.number,
            None => true,
        };
        if rises {
            push_posting(&mut posting, last, row)?;
            last = Some(row);
        }
    }
    Ok(posting)
}

// Byte 1 and the root page of a posting tree of these rows.
fn tree(alloc: Global, pages: &mut MemoryPages, numbers: &[u64]) -> Result<Bytes, Fail> {
    let rows = rows_of(alloc, numbers)?;
    let tree = PostingTree::create(alloc, pages, &rows)?;
    let mut posting = Bytes::from_slice(alloc, &[1])?;
    posting.extend_from_slice(&tree.root().to_le_bytes())?;
    Ok(posting)
}

fn put(
    alloc: Global,
    pages: &mut MemoryPages,
    root: u64,
    key: &[u8],
    posting: &Bytes,
) -> Result<(), Fail> {
    if key.len() <= 1901 && posting.len() <= 513 {
        EntryTree::at(root).put(alloc, pages, key, posting.as_slice())?;
    }
    Ok(())
}

// The index of the arrays {}, {1,2}, {2,1} and {3}, as rows 1 to 4: the list of 1 in a posting tree, the others in their entries.
fn index(alloc: Global, pages: &mut MemoryPages) -> Result<Gin<ArrayClass>, Fail> {
    let gin = Gin::create(ArrayClass, pages)?;
    let root = gin.root();
    let empty = inline(alloc, &[1])?;
    let ones = tree(alloc, pages, &[2, 3])?;
    let twos = inline(alloc, &[2, 3])?;
    let threes = inline(alloc, &[4])?;
    put(alloc, pages, root, &[0], &empty)?;
    put(alloc, pages, root, &[1, 0x80, 0, 0, 1], &ones)?;
    put(alloc, pages, root, &[1, 0x80, 0, 0, 2], &twos)?;
    put(alloc, pages, root, &[1, 0x80, 0, 0, 3], &threes)?;
    Ok(gin)
}

// Which of the four rows a search finds.
fn found(alloc: Global, sign: &str, text: &str) -> Result<[bool; 4], Fail> {
    let mut pages = MemoryPages::new(alloc)?;
    let gin = index(alloc, &mut pages)?;
    let query = array_query(alloc, sign, text)?;
    let rows = gin.search(alloc, &mut pages, &query)?;
    Ok([rows.has(1), rows.has(2), rows.has(3), rows.has(4)])
}

#[test]
fn searches_find_the_rows_in_reach_that_pass(rt: HostRuntime) -> Result<(), Fail> {
    let alloc = rt.alloc();
    let rows = [
        ("&&", "{1,3}", [false, true, true, true]),
        ("@>", "{1}", [false, true, true, false]),
        ("@>", "{1,3}", [false, false, false, false]),
        ("@>", "{}", [true, true, true, true]),
        ("<@", "{1}", [true, true, true, false]),
        ("<@", "{}", [true, false, false, false]),
        ("=", "{}", [true, false, false, false]),
        ("=", "{1,2}", [false, true, true, false]),
        ("@>", "{9}", [false, false, false, false]),
    ];
    for (sign, text, want) in rows {
        assert!(rt; found(alloc, sign, text)? == want, "{sign} {text}");
    }
    Ok(())
}

#[test]
fn an_index_that_is_given_back_leaves_its_pages(rt: HostRuntime) -> Result<(), Fail> {
    let alloc = rt.alloc();
    let mut pages = MemoryPages::new(alloc)?;
    let first = index(alloc, &mut pages)?;
    assert_eq!(rt; first.root(), 2);
    first.drop_all(alloc, &mut pages)?;
    // Its two pages are taken again.
    let second = Gin::create(ArrayClass, &mut pages)?;
    let third = Gin::create(ArrayClass, &mut pages)?;
    assert!(rt; second.root() <= 3 && third.root() <= 3);
    Ok(())
}
