//! Items are written to a page, or to two.

ghost use Rattle.std.specs.Prelude.{◌≡◌, ◌≢◌, ℕ, ◌+◌, ◌<◌, ◌≤◌, List, length, Option, Some, None, IfOk, IfErr, IfSome};
ghost use Rattle.std.specs.Option.{option_map};
ghost use Rattle.gx_pages.specs.Footprints.{IsOutside, StaysQuiet};
ghost use Rattle.gx_pages.specs.Frees.{IsFreeList, IsFull};
ghost use Rattle.gx_pages.specs.Pages.{HasCause};
ghost use Rattle.gx_tree.specs.Paging.{CanSplit, Parted, weight};

use crate::changing::broken;
use crate::items::Items;
use crate::splitting::{middle_of, page_with};
use gx_pages::{PageError, Pages};

/// A new page on the right of another, and the place of its first item among those of both.
#[derive(Clone, Copy, Debug, Drop)]
pub struct Right {
    pub page: u64,
    pub place: usize,
}

/// Writes items to a page, or where they don't fit to it and a new one on its right, so many to each at least.
pub fn write_items<P: Pages>(
    pages: &mut P,
    kind: u8,
    level: u8,
    page: u64,
    items: &Items,
    least: usize,
) -> Result<Option<Right>, PageError>
    requires { page ≢ 0 }
    ensures parted { IfOk result (λ right. P.tells → (free : List ℕ) → IsFreeList (P.map pages.old) (P.count pages.old) free → IsOutside page free → page < P.count pages.old
        → (rest : List ℕ) × (parted : Parted P.Pages pages.old pages.new kind level least page items.now (option_map (λ r. r.page) right) free rest)
        × IfSome right (λ r. r.place ≡ length parted.left)) }
    ensures grows { P.count pages.old ≤ P.count pages.new }
    ensures by_one { P.count pages.new ≤ P.count pages.old + 1 }
    ensures cause { IfErr result (HasCause (P.faults pages.old) (P.faults pages.new)
        (λ at expected found. P.tells → (free : List ℕ) → IsFreeList (P.map pages.old) (P.count pages.old) free → page < P.count pages.old → CanSplit least items.now → ⊥)
        (IsFull P.tells (P.map pages.new) (P.count pages.new)) (Unit {0})) }
    ensures heap { P.heap_fetches pages.new ≡ P.heap_fetches pages.old }
    ensures quiet { StaysQuiet P.Pages pages.old pages.new }
{
    let len = items.len();
    match page_with(kind, level, items, 0, len) {
        Some(whole) => {
            pages.put(page, whole.page())?;
            Ok(None)
        }
        None => split_items(pages, kind, level, page, items, least),
    }
}

/// Writes items to a page and a new one on its right, so many to each at least.
fn split_items<P: Pages>(
    pages: &mut P,
    kind: u8,
    level: u8,
    page: u64,
    items: &Items,
    least: usize,
) -> Result<Option<Right>, PageError>
    requires { page ≢ 0 }
    ensures parted { IfOk result (λ right. P.tells → (free : List ℕ) → IsFreeList (P.map pages.old) (P.count pages.old) free → IsOutside page free → page < P.count pages.old
        → (rest : List ℕ) × (parted : Parted P.Pages pages.old pages.new kind level least page items.now (option_map (λ r. r.page) right) free rest)
        × IfSome right (λ r. r.place ≡ length parted.left)) }
    ensures grows { P.count pages.old ≤ P.count pages.new }
    ensures by_one { P.count pages.new ≤ P.count pages.old + 1 }
    ensures cause { IfErr result (HasCause (P.faults pages.old) (P.faults pages.new)
        (λ at expected found. P.tells → (free : List ℕ) → IsFreeList (P.map pages.old) (P.count pages.old) free → page < P.count pages.old → 8176 < weight items.now → CanSplit least items.now → ⊥)
        (IsFull P.tells (P.map pages.new) (P.count pages.new)) (Unit {0})) }
    ensures heap { P.heap_fetches pages.new ≡ P.heap_fetches pages.old }
    ensures quiet { StaysQuiet P.Pages pages.old pages.new }
{
    let len = items.len();
    let place = middle_of(items);
    if place < least {
        return Err(broken(page));
    }
    if len < place {
        return Err(broken(page));
    }
    let others = len - place;
    if others < least {
        return Err(broken(page));
    }
    let Some(left) = page_with(kind, level, items, 0, place) else {
        return Err(broken(page));
    };
    let Some(right) = page_with(kind, level, items, place, len) else {
        return Err(broken(page));
    };
    let beside = pages.take()?;
    pages.put(beside, right.page())?;
    pages.put(page, left.page())?;
    Ok(Some(Right {
        page: beside,
        place,
    }))
}
