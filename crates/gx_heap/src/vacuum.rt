//! Pages without rows are given back.

ghost use Rattle.std.specs.Prelude.{◌≡◌, ◌≢◌, ℕ, ◌+◌, ◌<◌, ◌≤◌, true, false, List, [], IfErr, OnOk, OnErr};
ghost use Rattle.gx_pages.specs.Footprints.{KeepsPages, StaysQuiet};
ghost use Rattle.gx_pages.specs.Pages.{HasCause};
ghost use Rattle.gx_slot.specs.Slots.{IsBroken};
ghost use Rattle.gx_chain.specs.Chains.{Link, HoldsBeside, HoldsNone, entries_at, entries_of, pages_of};
ghost use Rattle.gx_heap.specs.Heaps.{AreFilled};

use crate::item::HEAP;
use gx_chain::{Chain, Trail, fetch_slots};
use gx_pages::{PageError, Pages, Steps};
use gx_slot::SlotPage;
use std::sync::ledger::Ledger;

/// Gives back each page of a chain without items, but the last one.
pub fn drop_empty<P: Pages, L: Ledger>(
    chain: &mut Chain,
    pages: &mut P,
    steps: &mut Steps<L>,
) -> Result<(), PageError>
    ensures kept { OnOk result (P.tells → (links : List Link) (free : List ℕ) → HoldsBeside P.Pages pages.old 2 chain.old links free
        → (later : List Link) × (rest : List ℕ) × HoldsBeside P.Pages pages.new 2 chain.new later rest × (entries_of later ≡ entries_of links) × AreFilled later
        × KeepsPages P.Pages pages.old pages.new (pages_of links) free (pages_of later) rest) }
    ensures last { chain.new.last ≡ chain.old.last }
    ensures pages { chain.new.pages ≡ chain.old.pages }
    ensures count { P.count pages.new ≡ P.count pages.old }
    ensures cause { IfErr result (HasCause (P.faults pages.old) (P.faults pages.new) (λ at expected found. P.tells → HoldsNone P.Pages pages.old 2 chain.old) (λ _. ⊥) (Unit {0})) }
    ensures ticks { P.heap_fetches pages.new + steps.old ≤ P.heap_fetches pages.old + steps.new }
    ensures most { steps.new ≤ steps.old + (chain.old.pages + chain.old.pages) }
    ensures fetches { P.fetches pages.new ≤ P.fetches pages.old + (chain.old.pages + chain.old.pages) }
    ensures quiet { StaysQuiet P.Pages pages.old pages.new }
{
    let mut trail = Trail::new();
    let mut before = 0;
    let mut page = chain.first;
    for _ in 0..chain.pages {
        steps.tick();
        let slots = fetch_slots(pages, page, HEAP)?;
        let next = slots.next();
        if next == 0 {
            return Ok(());
        }
        if !is_empty(&slots) {
            if !trail.passes(page) {
                return Err(unended(page));
            }
            before = page;
            page = next;
            continue;
        }
        if before == 0 {
            chain.unlink_first(pages, page, next)?;
            page = next;
            continue;
        }
        steps.tick();
        chain.unlink_behind(pages, HEAP, before, page, next)?;
        page = next;
    }
    Err(unended(page))
}

// Whether all slots are empty.
fn is_empty(slots: &SlotPage) -> bool
    ensures empty { result ≡ true → (page : ℕ) → entries_at page 0 slots.now.items ≡ [] }
    ensures filled { result ≡ false → (page : ℕ) → entries_at page 0 slots.now.items ≢ [] }
{
    for slot in 0..slots.count() {
        if let Some(_item) = slots.item(slot) {
            return false;
        }
    }
    true
}

// The chain goes on with this page, where it has to end, or has none.
fn unended(page: u64) -> PageError
    ensures { IsBroken page result }
{
    PageError::Broken {
        page,
        expected: if page == 0 { 1 } else { 0 },
        found: page,
    }
}
