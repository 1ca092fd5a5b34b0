//! Heaps over pages in memory.

ghost use Rattle.std.specs.Prelude.{◌≡◌, ◌<◌};

use gx_heap::Heap;
use gx_pages::{Bitmap, MemoryPages, PageError, Pages, RowRef, Rows, Steps};
use gx_slot::SlotPage;
use std::alloc::Global;
use std::marker::Brand;
use std::sync::ledger::{Blank, Ledger};
use std::test::Fail;

#[test]
fn rows_over_pages(rt: HostRuntime) -> Result<(), Fail> {
    let alloc = rt.alloc();
    let numbers = grow_and_shrink::<Brand>(alloc, Blank::new(1))?;
    let mut kept = Vec::new(alloc);
    for number in [1, 2, 12, 13, 14, 15] {
        kept.push(number)?;
    }
    assert_eq!(rt; numbers, kept);
    Ok(())
}

// Fifteen rows of 2,700 bytes stand three to a page; those from 3 to 11 are removed, and four pages are left without rows
// or with some. The numbers of the rows that are left.
fn grow_and_shrink<L: Ledger>(alloc: Global, blank: Blank) -> Result<Vec<u64>, Fail>
    requires name { blank.name ≡ L.name }
    requires parts { blank.parts ≡ L.parts }
    requires some { 0 < blank.parts }
{
    let mut steps = Steps::<L>::new(blank);
    let mut pages = MemoryPages::new(alloc)?;
    let mut heap = Heap::create(&mut pages)?;
    let mut gone = Bitmap::new(alloc);
    for number in 1..16u64 {
        if heap.next >= 1000 {
            break;
        }
        let at = heap.append(alloc, &mut pages, &[number as u8; 2700], &mut steps)?;
        if number > 2 && number < 12 {
            remember(&mut gone, at)?;
        }
    }
    heap.remove(&mut pages, &gone, &mut steps)?;
    heap.vacuum(&mut pages, &mut steps)?;
    let mut rows = Rows::new(alloc);
    let mut page = heap.first;
    for _ in 0..20 {
        if page != 0 {
            page = heap.next_page_of(&mut pages, page, &mut rows, &mut steps)?;
        }
    }
    let mut numbers = Vec::new(alloc);
    for at in 0..rows.len() {
        if let Some((row, bytes)) = rows.get(at) {
            let again = heap.row(alloc, &mut pages, row, &mut steps)?;
            if again.as_slice() == bytes {
                numbers.push(row.number)?;
            }
        }
    }
    heap.drop_all(&mut pages, &mut steps)?;
    Ok(numbers)
}

// Adds a row behind all others.
fn remember(gone: &mut Bitmap, at: RowRef) -> Result<(), Fail> {
    if gone.as_slice().iter().all(|row| row.number < at.number) {
        gone.push(at)?;
    }
    Ok(())
}

// A circle of three pages with a row each, and a next number that would take ages to count to: vacuum finds it.
#[test]
fn a_circle_is_found(rt: HostRuntime) -> Result<(), Fail> {
    let alloc = rt.alloc();
    let fetches = sweep_a_circle::<Brand>(alloc, Blank::new(1))?;
    assert_eq!(rt; fetches.is_some(), true);
    assert!(rt; fetches.unwrap_or(0) <= 12);
    Ok(())
}

fn sweep_a_circle<L: Ledger>(alloc: Global, blank: Blank) -> Result<Option<u64>, Fail>
    requires name { blank.name ≡ L.name }
    requires parts { blank.parts ≡ L.parts }
    requires some { 0 < blank.parts }
{
    let mut steps = Steps::<L>::new(blank);
    let mut pages = MemoryPages::new(alloc)?;
    for _ in 0..3 {
        let _page = pages.take()?;
    }
    for page in 2..5u64 {
        let mut slots = SlotPage::new(2, 0);
        let _slot = slots.add(&[1; 20]);
        slots.set_next(if page == 4 { 2 } else { page + 1 });
        pages.put(page, slots.page())?;
    }
    let mut heap = Heap {
        first: 2,
        last: 4,
        next: 1 << 47,
    };
    let before = pages.fetches();
    match heap.vacuum(&mut pages, &mut steps) {
        Err(PageError::Broken { .. }) => Ok(Some(pages.fetches().saturating_sub(before))),
        _ => Ok(None),
    }
}
