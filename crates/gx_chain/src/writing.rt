//! A slot page of a chain, written back with other items.

ghost use Rattle.std.specs.Prelude.{◌≡◌, ◌≢◌, ℕ, ◌+◌, ◌<◌, ◌≤◌, true, false, List, [], ◌∷◌, ◌++◌, length, Option, IfOk, IfErr, OnOk, OnErr};
ghost use Rattle.gx_pages.specs.Footprints.{KeepsPages, StaysQuiet};
ghost use Rattle.gx_pages.specs.Pages.{HasCause};
ghost use Rattle.gx_slot.specs.Slots.{Fits, IsBroken};
ghost use Rattle.gx_chain.specs.declared.chain.Chain.{Chain};
ghost use Rattle.gx_chain.specs.Chains.{Link, Holds, HoldsBeside, IsSound, entries_at, entries_of, first_of, pages_of, slots};
ghost use Rattle.gx_chain.specs.declared.entry.Entry.{Entry};

use crate::reading::fetch_slots;
use gx_pages::{PageError, Pages};
use gx_slot::SlotPage;

/// Puts a page of a chain with other items, and the same page behind it.
pub fn put_slots<P: Pages>(pages: &mut P, page: u64, from: &SlotPage) -> Result<(), PageError>
    requires { page ≢ 0 }
    ensures held { OnOk result (P.tells → (chain : Chain) (front back : List Link) (items : List (Option (List ℕ))) (free : List ℕ)
        → HoldsBeside P.Pages pages.old from.now.kind chain (front ++ (page, items) ∷ back) free → from.now ≡ slots from.now.kind (first_of back) from.now.items
        → HoldsBeside P.Pages pages.new from.now.kind chain (front ++ (page, from.now.items) ∷ back) free
        × KeepsPages P.Pages pages.old pages.new (pages_of (front ++ (page, items) ∷ back)) free (pages_of (front ++ (page, from.now.items) ∷ back)) free) }
    ensures fits { Fits from.now }
    ensures cause { IfErr result (HasCause (P.faults pages.old) (P.faults pages.new) (λ at expected found. P.count pages.old ≤ page) (λ _. ⊥) (Unit {0})) }
    ensures same { OnErr result (P.map pages.new ≡ P.map pages.old) }
    ensures count { P.count pages.new ≡ P.count pages.old }
    ensures heap { P.heap_fetches pages.new ≡ P.heap_fetches pages.old }
    ensures fetches { P.fetches pages.new ≡ P.fetches pages.old }
    ensures quiet { StaysQuiet P.Pages pages.old pages.new }
{
    pages.put(page, from.page())?;
    Ok(())
}

/// Puts another item of the same length in place of the one in a slot of a page of a chain.
pub fn replace_item<P: Pages>(
    pages: &mut P,
    kind: u8,
    page: u64,
    slot: u16,
    item: &[u8],
) -> Result<(), PageError>
    ensures replaced { OnOk result (P.tells → (chain : Chain) (links : List Link) (free : List ℕ) (front back : List Entry) (old : List ℕ)
        → HoldsBeside P.Pages pages.old kind chain links free → entries_of links ≡ front ++ record { page = page; slot = slot; item = old } ∷ back
        → (later : List Link) × HoldsBeside P.Pages pages.new kind chain later free
        × (entries_of later ≡ front ++ record { page = page; slot = slot; item = item.now } ∷ back) × (pages_of later ≡ pages_of links)
        × KeepsPages P.Pages pages.old pages.new (pages_of links) free (pages_of links) free) }
    ensures cause { IfErr result (HasCause (P.faults pages.old) (P.faults pages.new)
        (λ at expected found. P.tells → (chain : Chain) (links : List Link) (front back : List Entry) (old : List ℕ)
        → Holds (P.map pages.old) (P.count pages.old) kind chain links → entries_of links ≡ front ++ record { page = page; slot = slot; item = old } ∷ back
        → length old ≢ length item.now) (λ _. ⊥) (Unit {0})) }
    ensures count { P.count pages.new ≡ P.count pages.old }
    ensures heap { P.heap_fetches pages.new ≤ P.heap_fetches pages.old + 1 }
    ensures other { kind ≢ 2 → IsSound result → P.heap_fetches pages.new ≡ P.heap_fetches pages.old }
    ensures fetches { P.fetches pages.new ≤ P.fetches pages.old + 1 }
    ensures quiet { StaysQuiet P.Pages pages.old pages.new }
{
    let mut slots = fetch_slots(pages, page, kind)?;
    if slots.item(slot).is_none() {
        return Err(no_item(page));
    }
    let Ok(()) = slots.replace(slot, item) else {
        return Err(no_item(page));
    };
    put_slots(pages, page, &slots)?;
    Ok(())
}

/// Empties a slot of a page of a chain, and gives the page's slots as they are then.
pub fn remove_item<P: Pages>(
    pages: &mut P,
    kind: u8,
    page: u64,
    slot: u16,
) -> Result<SlotPage, PageError>
    ensures removed { IfOk result (λ now. P.tells → (chain : Chain) (links : List Link) (free : List ℕ) (front back : List Entry) (old : List ℕ)
        → HoldsBeside P.Pages pages.old kind chain links free → entries_of links ≡ front ++ record { page = page; slot = slot; item = old } ∷ back
        → (before : List Link) × (behind : List Link) × (items : List (Option (List ℕ))) × (links ≡ before ++ (page, items) ∷ behind)
        × HoldsBeside P.Pages pages.new kind chain (before ++ (page, now.items) ∷ behind) free × (now.next ≡ first_of behind)
        × (entries_of (before ++ (page, now.items) ∷ behind) ≡ front ++ back)
        × KeepsPages P.Pages pages.old pages.new (pages_of links) free (pages_of links) free) }
    ensures nonzero { OnOk result (page ≢ 0) }
    ensures below { OnOk result (page < P.count pages.old) }
    ensures cause { IfErr result (HasCause (P.faults pages.old) (P.faults pages.new)
        (λ at expected found. P.tells → (chain : Chain) (links : List Link) (front back : List Entry) (old : List ℕ)
        → Holds (P.map pages.old) (P.count pages.old) kind chain links → entries_of links ≢ front ++ record { page = page; slot = slot; item = old } ∷ back) (λ _. ⊥) (Unit {0})) }
    ensures count { P.count pages.new ≡ P.count pages.old }
    ensures heap { P.heap_fetches pages.new ≤ P.heap_fetches pages.old + 1 }
    ensures other { kind ≢ 2 → IsSound result → P.heap_fetches pages.new ≡ P.heap_fetches pages.old }
    ensures fetches { P.fetches pages.new ≤ P.fetches pages.old + 1 }
    ensures quiet { StaysQuiet P.Pages pages.old pages.new }
{
    let mut slots = fetch_slots(pages, page, kind)?;
    if slots.item(slot).is_none() {
        return Err(no_item(page));
    }
    slots.remove(slot);
    put_slots(pages, page, &slots)?;
    Ok(slots)
}

/// Whether no slot has an item.
pub fn is_empty(slots: &SlotPage) -> bool
    ensures empty { result ≡ true → (page : ℕ) → entries_at page 0 slots.now.items ≡ [] }
    ensures filled { result ≡ false → (page : ℕ) → entries_at page 0 slots.now.items ≢ [] }
{
    for slot in 0..slots.count() {
        if let Some(_item) = slots.item(slot) {
            return false;
        }
    }
    true
}

// The item isn't there.
fn no_item(page: u64) -> PageError
    ensures { IsBroken page result }
{
    PageError::Broken {
        page,
        expected: 1,
        found: 0,
    }
}
