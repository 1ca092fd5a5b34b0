//! A slot page, read from the pages.

ghost use Rattle.std.specs.Prelude.{◌≡◌, ◌≢◌, ℕ, ◌+◌, ◌<◌, ◌≤◌, List, ◌∷◌, ◌++◌, Option, Some, IfOk, IfErr, OnOk};
ghost use Rattle.gx_pages.specs.Footprints.{StaysQuiet};
ghost use Rattle.gx_pages.specs.Pages.{HasCause};
ghost use Rattle.gx_slot.specs.Slots.{Slots, Fits, IsSlotPage, spelling};
ghost use Rattle.gx_chain.specs.Chains.{AreLinked, IsSound, Link, entries_at, first_of, slots};

use crate::entry::Entry;
use gx_bytes::Bytes;
use gx_pages::{Page, PageError, Pages};
use gx_slot::{SlotPage, one_page};
use std::alloc::Global;

/// The slot page with this number. Broken where there is none of this kind; page 0 is none.
pub fn fetch_slots<P: Pages>(pages: &mut P, page: u64, kind: u8) -> Result<SlotPage, PageError>
    ensures bytes { IfOk result (λ slots. P.tells → P.map pages.old page ≡ Some (spelling slots)) }
    ensures kind { IfOk result (λ slots. slots.kind ≡ kind) }
    ensures fits { IfOk result (λ slots. Fits slots) }
    ensures one { IfOk result (λ found. P.tells → (slots : Slots) → P.map pages.old page ≡ Some (spelling slots) → Fits slots → found ≡ slots) }
    ensures link { IfOk result (λ found. P.tells → (front back : List Link) (items : List (Option (List ℕ)))
        → AreLinked (P.map pages.old) kind (front ++ (page, items) ∷ back) → found ≡ slots kind (first_of back) items) }
    ensures nonzero { OnOk result (page ≢ 0) }
    ensures below { OnOk result (page < P.count pages.old) }
    ensures cause { IfErr result (HasCause (P.faults pages.old) (P.faults pages.new)
        (λ at expected found. page ≢ 0 → page < P.count pages.old → P.tells → (bytes : List ℕ) → P.map pages.old page ≡ Some bytes → ¬ IsSlotPage bytes kind) (λ _. ⊥) ⊥) }
    ensures map { P.map pages.new ≡ P.map pages.old }
    ensures count { P.count pages.new ≡ P.count pages.old }
    ensures heap { P.heap_fetches pages.new ≤ P.heap_fetches pages.old + 1 }
    ensures other { kind ≢ 2 → IsSound result → P.heap_fetches pages.new ≡ P.heap_fetches pages.old }
    ensures fetches { P.fetches pages.new ≤ P.fetches pages.old + 1 }
    ensures quiet { StaysQuiet P.Pages pages.old pages.new }
{
    if page == 0 {
        return Err(PageError::Broken {
            page,
            expected: 1,
            found: page,
        });
    }
    let mut bytes = Page::zero();
    pages.fetch(page, &mut bytes)?;
    let slots = SlotPage::of(bytes, page, kind)?;
    let _page = slots.page();
    one_page();
    Ok(slots)
}

/// Adds the items of a page, with its number.
pub fn push_entries(
    alloc: Global,
    page: u64,
    slots: &SlotPage,
    entries: &mut Vec<Entry>,
) -> Result<(), PageError>
    ensures ok { OnOk result (entries.new.items ≡ entries.old.items ++ entries_at page 0 slots.now.items) }
    ensures err { IfErr result (λ error. error ≡ PageError.Memory) }
{
    for slot in 0..slots.count() {
        if let Some(item) = slots.item(slot) {
            let Ok(item) = Bytes::from_slice(alloc, item) else {
                return Err(PageError::Memory);
            };
            let Ok(()) = entries.push(Entry { page, slot, item }) else {
                return Err(PageError::Memory);
            };
        }
    }
    Ok(())
}
