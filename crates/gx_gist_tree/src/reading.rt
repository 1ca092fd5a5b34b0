//! A page of a tree, read from the pages.

ghost use Rattle.std.specs.Prelude.{◌≡◌, ◌≢◌, ℕ, ◌+◌, ◌<◌, ◌≤◌, List, Some, IfOk, IfErr, OnOk};
ghost use Rattle.gx_pages.specs.Footprints.{StaysQuiet};
ghost use Rattle.gx_pages.specs.Pages.{HasCause};
ghost use Rattle.gx_slot.specs.Slots.{Slots, Fits, IsBroken, spelling};
ghost use Rattle.gx_chain.specs.Chains.{IsSound as IsUnbroken};

use crate::items::GIST;
use gx_chain::fetch_slots;
use gx_pages::{PageError, Pages};
use gx_slot::SlotPage;

/// A page isn't as it has to be: there is no such item.
pub fn no_item(page: u64) -> PageError
    ensures { result ≡ PageError.Broken page 1 0 }
{
    PageError::Broken {
        page,
        expected: 1,
        found: 0,
    }
}

/// The level of a tree's root page. Broken where it is 50 or above.
pub fn root_level(slots: &SlotPage, page: u64) -> Result<u8, PageError>
    ensures level { IfOk result (λ level. (level ≡ slots.now.level) × (level < 50)) }
    ensures cause { IfErr result (λ error. (error ≡ PageError.Broken page 49 slots.now.level) × (50 ≤ slots.now.level)) }
{
    let level = slots.level();
    if level >= 50 {
        return Err(PageError::Broken {
            page,
            expected: 49,
            found: u64::from(level),
        });
    }
    Ok(level)
}

/// The page with this number and level. Broken where it has another level, or is no page of a tree.
pub fn fetch_level<P: Pages>(pages: &mut P, page: u64, level: u8) -> Result<SlotPage, PageError>
    ensures kind { IfOk result (λ found. (found.kind ≡ 4) × (found.level ≡ level) × Fits found) }
    ensures bytes { IfOk result (λ found. P.tells → P.map pages.old page ≡ Some (spelling found)) }
    ensures one { IfOk result (λ found. P.tells → (slots : Slots) → P.map pages.old page ≡ Some (spelling slots) → Fits slots → found ≡ slots) }
    ensures there { OnOk result ((page ≢ 0) × (page < P.count pages.old)) }
    ensures cause { IfErr result (HasCause (P.faults pages.old) (P.faults pages.new)
        (λ at expected found. page ≢ 0 → page < P.count pages.old → P.tells → (slots : Slots) → P.map pages.old page ≡ Some (spelling slots) → Fits slots → slots.kind ≡ 4 → slots.level ≡ level → ⊥) (λ _. ⊥) ⊥) }
    ensures map { P.map pages.new ≡ P.map pages.old }
    ensures count { P.count pages.new ≡ P.count pages.old }
    ensures other { IsUnbroken result → P.heap_fetches pages.new ≡ P.heap_fetches pages.old }
    ensures fetches { P.fetches pages.new ≤ P.fetches pages.old + 1 }
    ensures quiet { StaysQuiet P.Pages pages.old pages.new }
{
    let slots = fetch_slots(pages, page, GIST)?;
    let found = slots.level();
    if found != level {
        return Err(PageError::Broken {
            page,
            expected: u64::from(level),
            found: u64::from(found),
        });
    }
    Ok(slots)
}
