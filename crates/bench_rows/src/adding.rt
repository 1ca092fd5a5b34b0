//! Rows of a new heap.

ghost use Rattle.std.specs.Prelude.{◌≡◌, false, OnOk};

use gx_heap::Heap;
use gx_pages::{PageError, Pages, RowRef, Steps, Store};
use std::alloc::Global;
use std::sync::ledger::Ledger;

/// How many rows are added.
pub const ROWS: u64 = 100_000;

/// The row numbers that there are.
const NUMBERS: u64 = 1 << 48;

/// Makes a heap, adds the rows, and commits them. Answers the heap and where the rows stand.
pub fn add<S: Store, L: Ledger>(
    alloc: Global,
    store: &mut S,
    steps: &mut Steps<L>,
) -> Result<(Heap, Vec<RowRef>), PageError>
    requires { S.spoiled store.old ≡ false }
    ensures { OnOk result (S.spoiled store.new ≡ false) }
{
    store.begin();
    let mut heap = Heap::create(store)?;
    let mut places = Vec::new(alloc);
    add_rows(alloc, store, &mut heap, &mut places, steps)?;
    store.reserve()?;
    store.commit()?;
    Ok((heap, places))
}

fn add_rows<P: Pages, L: Ledger>(
    alloc: Global,
    pages: &mut P,
    heap: &mut Heap,
    places: &mut Vec<RowRef>,
    steps: &mut Steps<L>,
) -> Result<(), PageError>
    ensures { P.spoiled pages.new ≡ P.spoiled pages.old }
{
    for number in 0..ROWS {
        let row = [(number % 250) as u8; 40];
        add_row(alloc, pages, heap, places, steps, &row)?;
    }
    Ok(())
}

fn add_row<P: Pages, L: Ledger>(
    alloc: Global,
    pages: &mut P,
    heap: &mut Heap,
    places: &mut Vec<RowRef>,
    steps: &mut Steps<L>,
    row: &[u8; 40],
) -> Result<(), PageError>
    ensures { P.spoiled pages.new ≡ P.spoiled pages.old }
{
    if heap.next >= NUMBERS {
        return Ok(());
    }
    let at = heap.append(alloc, pages, row, steps)?;
    match places.push(at) {
        Ok(()) => Ok(()),
        Err(_) => Err(PageError::Memory),
    }
}
