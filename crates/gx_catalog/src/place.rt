//! Where an item stands among the entries of the catalog's chain.

ghost use Rattle.std.specs.Prelude.{◌≡◌, ◌≢◌, ℕ, List, [], ◌∷◌, ◌++◌, IfOk, IfErr, IfSome, IfNone};
ghost use Rattle.std.specs.List.{AllByRecursion};
ghost use Rattle.gx_pages.specs.Footprints.{StaysQuiet};
ghost use Rattle.gx_pages.specs.Pages.{HasCause};
ghost use Rattle.gx_slot.specs.Slots.{IsBroken};
ghost use Rattle.gx_chain.specs.declared.chain.Chain.{Chain};
ghost use Rattle.gx_chain.specs.declared.entry.Entry.{Entry};
ghost use Rattle.gx_chain.specs.Chains.{Holds, IsBehind, IsSound, Link};
ghost use Rattle.gx_catalog.specs.Places.{HasNoItem, IsPlace};

use crate::lookup::is_same;
use gx_chain::{Chain, Entry};
use gx_pages::{PageError, Pages};
use std::alloc::Global;

/// The kind of a catalog page.
pub const CATALOG: u8 = 3;

/// The first page of a catalog.
pub const FIRST: u64 = 1;

/// Where an item stands: its page and its slot, and the page before its page or 0.
#[derive(Clone, Copy, Debug, Drop)]
pub struct Place {
    pub before: u64,
    pub page: u64,
    pub slot: u16,
}

/// The place of the first item with these bytes. Broken where no chain has one.
pub fn find_place<P: Pages>(alloc: Global, pages: &mut P, item: &[u8]) -> Result<Place, PageError>
    ensures found { IfOk result (λ place. P.tells → (chain : Chain) (links : List Link) → chain.first ≡ 1 → Holds (P.map pages.old) (P.count pages.old) 3 chain links
        → IsPlace links place.before place.page place.slot item.now) }
    ensures cause { IfErr result (HasCause (P.faults pages.old) (P.faults pages.new)
        (λ at expected found. P.tells → HasNoItem (P.map pages.old) (P.count pages.old) item.now) (λ _. ⊥) (Unit {0})) }
    ensures map { P.map pages.new ≡ P.map pages.old }
    ensures count { P.count pages.new ≡ P.count pages.old }
    ensures heap { IsSound result → P.heap_fetches pages.new ≡ P.heap_fetches pages.old }
    ensures quiet { StaysQuiet P.Pages pages.old pages.new }
{
    let (_chain, feet, entries) = Chain::open(alloc, pages, CATALOG, FIRST)?;
    let Some((page, slot)) = entry_of(entries.as_slice(), item) else {
        return Err(no_catalog());
    };
    let before = page_before(feet.as_slice(), page);
    Ok(Place { before, page, slot })
}

/// The page and the slot of the first entry with these bytes.
fn entry_of(entries: &[Entry], item: &[u8]) -> Option<(u64, u16)>
    ensures some { IfSome result (λ at. (front : List Entry) × (back : List Entry) × (entries.now ≡ front ++ record { page = at.0; slot = at.1; item = item.now } ∷ back)) }
    ensures none { IfNone result (AllByRecursion (λ (entry : Entry). entry.item ≢ item.now) entries.now) }
{
    for entry in entries {
        if is_same(entry.item.as_slice(), item) {
            return Some((entry.page, entry.slot));
        }
    }
    None
}

/// The page before this one, or 0.
fn page_before(feet: &[u64], page: u64) -> u64
    ensures { IsBehind result page feet.now }
{
    let mut before = 0;
    for foot in feet {
        if *foot == page {
            return before;
        }
        before = *foot;
    }
    0
}

/// The pages hold no catalog of a database.
pub fn no_catalog() -> PageError
    ensures { IsBroken 1 result }
{
    PageError::Broken {
        page: FIRST,
        expected: 1,
        found: 0,
    }
}
