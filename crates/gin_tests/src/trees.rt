//! Entry trees and posting trees over pages in memory.

use gx_bytes::Bytes;
use gx_gin_entry::EntryTree;
use gx_pages::{Bitmap, MemoryPages, PageError, Pages, RowRef};
use gx_posting_tree::PostingTree;
use gx_slot::SlotPage;
use std::alloc::Global;
use std::test::Fail;

fn row_of(number: u64) -> RowRef {
    RowRef {
        number,
        page: 7,
        slot: 3,
    }
}

// The rows with the numbers from 1 to this one.
fn rows_to(alloc: Global, last: u64) -> Result<Bitmap, Fail> {
    let mut rows = Bitmap::new(alloc);
    for number in 0..last {
        let row = row_of(number + 1);
        if rows.is_below(row.number) {
            rows.push(row)?;
        }
    }
    Ok(rows)
}

// Whether a posting tree that is made of so many rows has just these, also with one more behind them, and how many pages it takes at first.
fn posting_tree(alloc: Global, count: u64) -> Result<(bool, u64), Fail> {
    let mut pages = MemoryPages::new(alloc)?;
    let rows = rows_to(alloc, count)?;
    let mut tree = PostingTree::create(alloc, &mut pages, &rows)?;
    let taken = pages.take()?.saturating_sub(2);
    let first = tree.rows(alloc, &mut pages)?;
    let row = row_of(u64::MAX);
    tree.insert(alloc, &mut pages, row)?;
    let second = tree.rows(alloc, &mut pages)?;
    tree.drop_all(alloc, &mut pages)?;
    let same = first.as_slice() == rows.as_slice();
    let mut behind = second.as_slice().iter();
    let all = behind.by_ref().take(rows.len()).eq(rows.as_slice().iter());
    Ok((same && all && behind.next() == Some(&row), taken))
}

#[test]
fn posting_trees_have_the_rows_that_were_given(rt: HostRuntime) -> Result<(), Fail> {
    // One page holds 341 rows at least; 3,000 rows of five bytes take two pages or more.
    for (count, least, most) in [(0, 1, 1), (1, 1, 1), (171, 1, 1), (341, 1, 1), (3000, 2, 9)] {
        let (same, taken) = posting_tree(rt.alloc(), count)?;
        assert!(rt; same, "{count} rows");
        assert!(rt;
            least <= taken && taken <= most,
            "{count} rows on {taken} pages"
        );
    }
    Ok(())
}

// The rows with every second number from 1 or 2 to this one.
fn every_second(alloc: Global, from: u64, last: u64) -> Result<Bitmap, Fail> {
    let mut rows = Bitmap::new(alloc);
    for number in 0..last {
        let row = row_of(number + 1);
        if row.number % 2 == from % 2 && rows.is_below(row.number) {
            rows.push(row)?;
        }
    }
    Ok(rows)
}

// A posting tree of these rows, put in one by one.
fn inserted(alloc: Global, pages: &mut MemoryPages, rows: &Bitmap) -> Result<PostingTree, Fail> {
    let none = Bitmap::new(alloc);
    let mut tree = PostingTree::create(alloc, pages, &none)?;
    for row in rows.as_slice() {
        tree.insert(alloc, pages, *row)?;
    }
    Ok(tree)
}

#[test]
fn rows_are_taken_out_of_posting_trees(rt: HostRuntime) -> Result<(), Fail> {
    let alloc = rt.alloc();
    let mut pages = MemoryPages::new(alloc)?;
    let all = rows_to(alloc, 3000)?;
    let odd = every_second(alloc, 1, 3000)?;
    let even = every_second(alloc, 2, 3000)?;
    let mut tree = inserted(alloc, &mut pages, &all)?;
    // The page that is taken next is the same at the end: none was taken or given.
    let next = pages.take()?;
    pages.give(next)?;
    let none = Bitmap::new(alloc);
    assert!(rt; !tree.remove_rows(alloc, &mut pages, &none)?);
    assert!(rt; tree.rows(alloc, &mut pages)?.as_slice() == all.as_slice());
    assert!(rt; !tree.remove_rows(alloc, &mut pages, &odd)?);
    assert!(rt; tree.rows(alloc, &mut pages)?.as_slice() == even.as_slice());
    // None of these rows is left, and nothing changes.
    assert!(rt; !tree.remove_rows(alloc, &mut pages, &odd)?);
    assert!(rt; tree.rows(alloc, &mut pages)?.as_slice() == even.as_slice());
    assert!(rt; tree.remove_rows(alloc, &mut pages, &even)?);
    assert!(rt; tree.rows(alloc, &mut pages)?.len() == 0);
    assert!(rt; tree.remove_rows(alloc, &mut pages, &all)?);
    let row = row_of(3001);
    tree.insert(alloc, &mut pages, row)?;
    assert!(rt; tree.rows(alloc, &mut pages)?.as_slice() == [row].as_slice());
    assert!(rt; pages.take()? == next);
    Ok(())
}

// The key of a number, in an order of its own.
fn key_of(number: u32) -> [u8; 4] {
    number.wrapping_mul(0x9e37_79b1).to_be_bytes()
}

// How many keys follow one another above the first, and whether they rise and each has the posting that it was given.
fn walk(alloc: Global, pages: &mut MemoryPages, tree: &EntryTree) -> Result<(usize, bool), Fail> {
    let mut last: Option<Bytes> = None;
    let mut good = true;
    for count in 0..500 {
        let key = match &last {
            Some(key) => Some(key.as_slice()),
            None => None,
        };
        let Some((next, posting)) = tree.after(alloc, pages, key)? else {
            return Ok((count, good));
        };
        let rises = match &last {
            Some(key) => key.as_slice() < next.as_slice(),
            None => true,
        };
        good = good
            && rises
            && posting.len() == 64
            && posting.as_slice().first() == next.as_slice().first();
        last = Some(next);
    }
    Ok((500, good))
}

// 400 keys, each with its first byte 64 times as its posting, on some pages of level 0; then all but every hundredth are taken out, so that pages are empty. How many
// there are before and after, and whether each call finds them.
fn entry_tree(alloc: Global) -> Result<(usize, usize, bool), Fail> {
    let mut pages = MemoryPages::new(alloc)?;
    let mut tree = EntryTree::create(&mut pages)?;
    for number in 0..400 {
        let key = key_of(number);
        tree.put(alloc, &mut pages, &key, &[key[0]; 64])?;
    }
    let (before, rise) = walk(alloc, &mut pages, &tree)?;
    let mut found = rise;
    for number in 0..400 {
        if number % 100 != 0 {
            tree.remove(&mut pages, &key_of(number))?;
        }
    }
    let (after, stay) = walk(alloc, &mut pages, &tree)?;
    for number in 0..400 {
        let is_there = tree.get(alloc, &mut pages, &key_of(number))?.is_some();
        found = found && is_there == (number % 100 == 0);
    }
    tree.drop_all(alloc, &mut pages)?;
    Ok((before, after, found && stay))
}

#[test]
fn entry_trees_are_ordered_maps(rt: HostRuntime) -> Result<(), Fail> {
    let (before, after, found) = entry_tree(rt.alloc())?;
    assert_eq!(rt; before, 400);
    assert_eq!(rt; after, 4);
    assert!(rt; found);
    Ok(())
}

// Puts a page at the next free one.
fn put_page(pages: &mut MemoryPages, slots: &SlotPage) -> Result<u64, Fail> {
    let page = pages.take()?;
    if page != 0 {
        pages.put(page, slots.page())?;
    }
    Ok(page)
}

// A page of a level whose items, so many, all name one page.
fn names(
    alloc: Global,
    kind: u8,
    level: u8,
    key: &[u8],
    child: u64,
    times: u16,
) -> Result<SlotPage, Fail> {
    let mut item = Bytes::from_slice(alloc, key)?;
    item.extend_from_slice(&child.to_le_bytes())?;
    let mut slots = SlotPage::new(kind, level);
    for _ in 0..times {
        let _ = slots.add(item.as_slice()).is_ok();
    }
    Ok(slots)
}

// What the calls that read a tree of a kind below a root page do: whether each gives Ok, or Broken with two numbers that differ, and how many pages they fetch.
fn reads(alloc: Global, pages: &mut MemoryPages, kind: u8, root: u64) -> (bool, bool, u64) {
    let before = pages.fetches();
    let (first, second) = if kind == 5 {
        let tree = EntryTree::at(root);
        (
            answer(&tree.get(alloc, pages, b"b")),
            answer(&tree.after(alloc, pages, None)),
        )
    } else {
        let tree = PostingTree::at(root);
        let mut stripped = PostingTree::at(root);
        (
            answer(&tree.rows(alloc, pages)),
            answer(&stripped.remove_rows(alloc, pages, &Bitmap::new(alloc))),
        )
    };
    let sound = first.is_some() && second.is_some();
    let broken = first == Some(false) && second == Some(false);
    (sound, broken, pages.fetches().saturating_sub(before))
}

// True for Ok, false for Broken with two numbers that differ.
fn answer<T>(outcome: &Result<T, PageError>) -> Option<bool> {
    match outcome {
        Ok(_) => Some(true),
        Err(
            PageError::Broken {
                page: _,
                expected,
                found,
            },
        ) if expected != found => Some(false),
        Err(_) => None,
    }
}

// Keys of one byte and of the number 1, as they stand before the page that an item names.
const ENTRY_KEY: [u8; 3] = [1, 0, b'a'];

const POSTING_KEY: [u8; 8] = [1, 0, 0, 0, 0, 0, 0, 0];

// Whether both calls are refused, with two numbers that differ, where a root page has these slots.
fn refuses(alloc: Global, kind: u8, slots: &SlotPage) -> Result<bool, Fail> {
    let mut pages = MemoryPages::new(alloc)?;
    let root = put_page(&mut pages, slots)?;
    let (_, broken, _) = reads(alloc, &mut pages, kind, root);
    Ok(broken)
}

#[test]
fn trees_of_hostile_pages_are_refused(rt: HostRuntime) -> Result<(), Fail> {
    let alloc = rt.alloc();
    for (kind, key) in [(5, ENTRY_KEY.as_slice()), (6, POSTING_KEY.as_slice())] {
        let mut no_list = SlotPage::new(kind, 0);
        let _ = no_list.add(&[200]).is_ok();
        // Of two rows each the second one has the first one's number.
        let mut falling = SlotPage::new(kind, 0);
        let _ = falling.add(&[2, 7, 3, 0, 7, 3]).is_ok();
        // The root page is page 2, and page 1 is one of the catalog.
        let cases = [
            (
                "a root that is its own child",
                names(alloc, kind, 1, key, 2, 2)?,
            ),
            ("a child of another kind", names(alloc, kind, 1, key, 1, 2)?),
            ("an item that is too short", no_list),
            ("numbers that don't rise", falling),
            ("level 50", SlotPage::new(kind, 50)),
            ("a heap page", SlotPage::new(2, 0)),
        ];
        for (name, slots) in cases {
            assert!(rt; refuses(alloc, kind, &slots)?, "{kind} {name}");
        }
    }
    Ok(())
}

// Pages of so many levels above an empty one, whose items all name the page below.
fn tower(
    alloc: Global,
    pages: &mut MemoryPages,
    kind: u8,
    key: &[u8],
    levels: u8,
) -> Result<u64, Fail> {
    let mut below = put_page(pages, &SlotPage::new(kind, 0))?;
    for level in 0..levels {
        if level < 49 {
            let slots = names(alloc, kind, level + 1, key, below, 300)?;
            below = put_page(pages, &slots)?;
        }
    }
    Ok(below)
}

#[test]
fn upper_pages_that_name_one_child_end(rt: HostRuntime) -> Result<(), Fail> {
    let alloc = rt.alloc();
    for (kind, key) in [(5, ENTRY_KEY.as_slice()), (6, POSTING_KEY.as_slice())] {
        for levels in [1, 2, 3, 49] {
            let mut pages = MemoryPages::new(alloc)?;
            let root = tower(alloc, &mut pages, kind, key, levels)?;
            let (sound, _, fetches) = reads(alloc, &mut pages, kind, root);
            assert!(rt; sound, "{kind} {levels}");
            assert!(rt;
                fetches <= 2 * 500 * u64::from(levels),
                "{kind} {levels}: {fetches} fetches"
            );
        }
    }
    Ok(())
}
