//! Rows are removed from a page.

ghost use Rattle.std.specs.Prelude.{◌≡◌, ◌≢◌, ℕ, ◌+◌, ◌<◌, ◌≤◌, List, ◌∷◌, ◌++◌, length, Option, IfOk, IfErr, OnOk};
ghost use Rattle.gx_pages.specs.declared.row.RowRef.{RowRef};
ghost use Rattle.gx_pages.specs.Footprints.{KeepsPages, StaysQuiet};
ghost use Rattle.gx_pages.specs.Pages.{HasCause};
ghost use Rattle.gx_pages.specs.Rows.{IsRising};
ghost use Rattle.gx_slot.specs.Slots.{IsBroken};
ghost use Rattle.gx_heap.specs.declared.heap.Heap.{Heap};
ghost use Rattle.gx_heap.specs.Heaps.{Row, HoldsHeap, AreRows, Empties, HasNoItem, runs, without};

use crate::item::HEAP;
use crate::reading::{item_at, no_row};
use gx_chain::{fetch_slots, put_slots};
use gx_pages::{PageError, Pages, RowRef, Steps};
use gx_slot::SlotPage;
use std::sync::ledger::Ledger;

/// Removes the rows at the front of the list that stand on one page, and gives those behind them.
pub fn remove_run<'a, P: Pages, L: Ledger>(
    pages: &mut P,
    rows: &'a [RowRef],
    steps: &mut Steps<L>,
) -> Result<&'a [RowRef], PageError>
    requires some { 0 < length rows.now }
    ensures fewer { IfOk result (λ rest. length rest.now < length rows.now) }
    ensures run { IfOk result (λ rest. runs rows.now ≡ 1 + runs rest.now) }
    ensures removed { IfOk result (λ rest. P.tells → (heap : Heap) (all : List Row) (feet free : List ℕ) → HoldsHeap P.Pages pages.old heap all feet free → IsRising rows.now
        → AreRows rows.now all
        → (run : List RowRef) × (rows.now ≡ run ++ rest.now) × HoldsHeap P.Pages pages.new heap (without run all) feet free
        × KeepsPages P.Pages pages.old pages.new feet free feet free × AreRows rest.now (without run all)) }
    ensures count { P.count pages.new ≡ P.count pages.old }
    ensures cause { IfErr result (HasCause (P.faults pages.old) (P.faults pages.new)
        (λ at expected found. P.tells → (heap : Heap) (all : List Row) (feet free : List ℕ) → HoldsHeap P.Pages pages.old heap all feet free → IsRising rows.now
        → ¬ AreRows rows.now all) (λ _. ⊥) (Unit {0})) }
    ensures ticks { P.heap_fetches pages.new + steps.old ≤ P.heap_fetches pages.old + steps.new }
    ensures most { steps.new ≤ steps.old + 1 }
    ensures fetches { P.fetches pages.new ≤ P.fetches pages.old + 1 }
    ensures quiet { StaysQuiet P.Pages pages.old pages.new }
{
    let Some((first, _more)) = rows.split_first() else {
        unreachable!();
    };
    let page = first.page;
    steps.tick();
    let mut slots = fetch_slots(pages, page, HEAP)?;
    let rest = empty_slots(page, rows, &mut slots)?;
    put_slots(pages, page, &slots)?;
    Ok(rest)
}

// Empties the slots of the rows at the front of the list that stand on this page, and gives the rows behind them.
fn empty_slots<'a>(
    page: u64,
    rows: &'a [RowRef],
    slots: &mut SlotPage,
) -> Result<&'a [RowRef], PageError>
    ensures emptied { IfOk result (λ rest. (run : List RowRef) × (rows.now ≡ run ++ rest.now) × Empties page run slots.old.items slots.new.items) }
    ensures stops { IfOk result (λ rest. (at : RowRef) (more : List RowRef) → rest.now ≡ at ∷ more → at.page ≢ page) }
    ensures rest { slots.new ≡ record slots.old { items = slots.new.items } }
    ensures cause { IfErr result (λ error. IsBroken page error × ((run more : List RowRef) × (at : RowRef) × (items : List (Option (List ℕ)))
        × (rows.now ≡ run ++ at ∷ more) × (at.page ≡ page) × Empties page run slots.old.items items × HasNoItem items at)) }
{
    let mut rest = rows;
    while let Some((at, more)) = rest.split_first() {
        if at.page != page {
            return Ok(rest);
        }
        let Some(_row) = item_at(slots, *at) else {
            return Err(no_row(*at));
        };
        slots.remove(at.slot);
        rest = more;
    }
    Ok(rest)
}
