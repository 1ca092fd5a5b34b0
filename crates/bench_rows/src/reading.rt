//! Rows that are read.

use gx_heap::Heap;
use gx_pages::{Pages, RowRef, Rows, Steps};
use std::alloc::Global;
use std::sync::ledger::Ledger;

/// How many rows are looked up.
pub const LOOKED_UP: u64 = 10_000;

/// Reads all rows, page by page, and tells how many there are.
pub fn scan<P: Pages, L: Ledger>(
    alloc: Global,
    pages: &mut P,
    heap: &Heap,
    steps: &mut Steps<L>,
) -> u64 {
    let mut found = 0u64;
    let mut page = heap.first;
    for _ in 0..heap.next {
        let mut rows = Rows::new(alloc);
        page = match heap.next_page_of(pages, page, &mut rows, steps) {
            Ok(next) => next,
            Err(_) => return found,
        };
        found = found.wrapping_add(rows.len() as u64);
        if page == 0 {
            return found;
        }
    }
    found
}

/// Looks up rows by their places, one here and one there, and tells how many bytes they have.
pub fn look_up<P: Pages, L: Ledger>(
    alloc: Global,
    pages: &mut P,
    heap: &Heap,
    places: &[RowRef],
    steps: &mut Steps<L>,
) -> u64 {
    let mut bytes = 0u64;
    for round in 0..LOOKED_UP {
        let at = round
            .wrapping_mul(7919)
            .checked_rem(places.len() as u64)
            .unwrap_or(0);
        if let Some(place) = places.get(at as usize)
            && let Ok(row) = heap.row(alloc, pages, *place, steps)
        {
            bytes = bytes.wrapping_add(row.as_slice().len() as u64);
        }
    }
    bytes
}
