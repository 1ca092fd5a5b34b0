//! A page of a tree.

ghost use Rattle.std.specs.Prelude.{◌≡◌, ◌≢◌, ℕ, ◌+◌, ◌<◌, ◌≤◌, List, Option, Some, IfOk, IfErr, OnOk};
ghost use Rattle.gx_pages.specs.Footprints.{StaysQuiet};
ghost use Rattle.gx_pages.specs.Pages.{HasCause};
ghost use Rattle.gx_slot.specs.Slots.{Slots, Fits, spelling};
ghost use Rattle.gx_chain.specs.Chains.{IsSound};
ghost use Rattle.gx_tree.specs.Trees.{Holds, HoldsNone, LacksPage, Tree, slots_of};

use gx_chain::fetch_slots;
use gx_pages::{PageError, Pages};
use gx_slot::SlotPage;

/// No tree has as many levels: each page above level 0 has two below it, and there are at most 2^50 pages.
pub const LEVELS: u8 = 50;

/// The page with this number, of this kind and level. Broken where there is none.
pub fn fetch_level<P: Pages>(
    pages: &mut P,
    page: u64,
    kind: u8,
    level: u8,
) -> Result<SlotPage, PageError>
    ensures one { IfOk result (λ found. P.tells → (slots : Slots) → P.map pages.old page ≡ Some (spelling slots) → Fits slots → found ≡ slots) }
    ensures kind { IfOk result (λ found. (found.kind ≡ kind) × (found.level ≡ level)) }
    ensures fits { IfOk result (λ found. Fits found) }
    ensures nonzero { OnOk result (page ≢ 0) }
    ensures below { OnOk result (page < P.count pages.old) }
    ensures cause { IfErr result (HasCause (P.faults pages.old) (P.faults pages.new)
        (λ at expected found. P.tells → LacksPage (P.map pages.old) (P.count pages.old) page kind level) (λ _. ⊥) ⊥) }
    ensures map { P.map pages.new ≡ P.map pages.old }
    ensures count { P.count pages.new ≡ P.count pages.old }
    ensures heap { kind ≢ 2 → IsSound result → P.heap_fetches pages.new ≡ P.heap_fetches pages.old }
    ensures fetches { P.fetches pages.new ≤ P.fetches pages.old + 1 }
    ensures quiet { StaysQuiet P.Pages pages.old pages.new }
{
    let slots = fetch_slots(pages, page, kind)?;
    let found = slots.level();
    if found != level {
        return Err(PageError::Broken {
            page,
            expected: u64::from(level),
            found: u64::from(found),
        });
    }
    Ok(slots)
}

/// The root page of a tree. Broken where none begins there.
pub fn fetch_top<P: Pages>(pages: &mut P, root: u64, kind: u8) -> Result<SlotPage, PageError>
    ensures top { IfOk result (λ found. P.tells → (tree : Tree) → Holds (P.map pages.old) (P.count pages.old) kind root tree → found ≡ slots_of kind tree.0 tree.1) }
    ensures level { IfOk result (λ found. found.level < 50) }
    ensures kind { IfOk result (λ found. found.kind ≡ kind) }
    ensures fits { IfOk result (λ found. Fits found) }
    ensures nonzero { OnOk result (root ≢ 0) }
    ensures below { OnOk result (root < P.count pages.old) }
    ensures cause { IfErr result (HasCause (P.faults pages.old) (P.faults pages.new)
        (λ at expected found. P.tells → HoldsNone (P.map pages.old) (P.count pages.old) kind root) (λ _. ⊥) ⊥) }
    ensures map { P.map pages.new ≡ P.map pages.old }
    ensures count { P.count pages.new ≡ P.count pages.old }
    ensures heap { kind ≢ 2 → IsSound result → P.heap_fetches pages.new ≡ P.heap_fetches pages.old }
    ensures fetches { P.fetches pages.new ≤ P.fetches pages.old + 1 }
    ensures quiet { StaysQuiet P.Pages pages.old pages.new }
{
    let slots = fetch_slots(pages, root, kind)?;
    let level = slots.level();
    if level >= LEVELS {
        return Err(PageError::Broken {
            page: root,
            expected: u64::from(LEVELS - 1),
            found: u64::from(level),
        });
    }
    Ok(slots)
}
