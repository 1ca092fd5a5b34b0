//! Entries on a page of level 0.

ghost use Rattle.std.specs.Prelude.{◌≡◌, ◌≢◌, ℕ, ◌+◌, ◌≤◌, ◌<◌, List, ◌∷◌, ◌++◌, length, MatchBool, MatchOption, IfOk, IfErr, IfSome, IfNone, IsSome, true};
ghost use Rattle.gx_slot.specs.Slots.{item_at};
ghost use Rattle.gx_tree.specs.Trees.{IsBrokenOr};
ghost use Rattle.gx_gin_entry.specs.EntryTrees.{AreListed, Entry, IsBefore, IsBetween, IsFound, IsHere, IsPlace, IsRange};

use crate::keys::{is_before, is_same, split_entry};
use gx_bytes::Bytes;
use gx_pages::PageError;
use gx_slot::SlotPage;
use std::alloc::Global;

/// A page isn't as it has to be.
pub fn broken(page: u64) -> PageError
    ensures { result ≡ PageError.Broken page 1 0 }
{
    PageError::Broken {
        page,
        expected: 1,
        found: 0,
    }
}

/// The key and the posting in a slot. None where there are none.
pub fn entry_at(slots: &SlotPage, slot: u16) -> Option<(&[u8], &[u8])>
    ensures there { IsSome result → IsSome (item_at slots.now.items slot) }
    ensures entry { MatchOption result ((list : List Entry) → AreListed slots.now.items list → slot < length list → ⊥)
        (λ found. (list front back : List Entry) (entry : Entry) → AreListed slots.now.items list → list ≡ front ++ entry ∷ back → slot ≡ length front → (found.0.now ≡ entry.0) × (found.1.now ≡ entry.1)) }
{
    let Some(item) = slots.item(slot) else {
        return None;
    };
    split_entry(item)
}

/// Tells whether the key in a slot comes before this one. None where there is none.
fn slot_before(slots: &SlotPage, slot: u16, key: &[u8]) -> Option<bool>
    ensures before { IfSome result (λ yes. (list front back : List Entry) (entry : Entry) → AreListed slots.now.items list → list ≡ front ++ entry ∷ back → slot ≡ length front
        → MatchBool yes (IsBefore entry.0 key.now) (IsBefore entry.0 key.now → ⊥)) }
    ensures none { IfNone result ((list : List Entry) → AreListed slots.now.items list → slot < length list → ⊥) }
{
    let Some((found, _)) = entry_at(slots, slot) else {
        return None;
    };
    Some(is_before(found, key))
}

/// The first slot whose key isn't before this one, between two slots: by halving.
fn place_between(slots: &SlotPage, key: &[u8], from: u16, end: u16) -> Option<u16>
    requires { from ≤ end }
    ensures place { IfSome result (λ place. (list : List Entry) → AreListed slots.now.items list → IsRange list key.now from end → IsPlace list key.now place) }
    ensures none { IfNone result ((list : List Entry) → AreListed slots.now.items list → end ≤ length list → ⊥) }
{
    let rest = end - from;
    if rest == 0 {
        return Some(from);
    }
    let middle = from + rest / 2;
    let Some(before) = slot_before(slots, middle, key) else {
        return None;
    };
    if before {
        return place_between(slots, key, middle + 1, end);
    }
    place_between(slots, key, from, middle)
}

/// A slot, and whether the key stands there that was sought, or would have to.
#[derive(Clone, Copy, Debug, Drop)]
pub struct Place {
    pub slot: u16,
    pub here: bool,
}

/// Where a key stands on a page, or would have to. None where there are no entries that rise.
pub fn find_in(slots: &SlotPage, key: &[u8]) -> Option<Place>
    ensures found { IfSome result (λ found. (list : List Entry) → AreListed slots.now.items list → MatchBool found.here (IsHere list key.now found.slot) (IsBetween list key.now found.slot)) }
    ensures below { IfSome result (λ found. found.here ≡ true → found.slot < 65535) }
    ensures there { IfSome result (λ found. found.here ≡ true → IsSome (item_at slots.now.items found.slot)) }
    ensures none { IfNone result ((list : List Entry) → AreListed slots.now.items list → ⊥) }
{
    let count = slots.count();
    let Some(slot) = place_between(slots, key, 0, count) else {
        return None;
    };
    if count <= slot {
        return Some(Place { slot, here: false });
    }
    let Some((found, _)) = entry_at(slots, slot) else {
        return None;
    };
    if is_same(found, key) {
        return Some(Place { slot, here: true });
    }
    Some(Place { slot, here: false })
}

/// The posting of a key on a page.
pub fn posting_in(
    alloc: Global,
    page: u64,
    slots: &SlotPage,
    key: &[u8],
) -> Result<Option<Bytes>, PageError>
    ensures found { IfOk result (λ found. (list : List Entry) → AreListed slots.now.items list → IsFound list key.now found) }
    ensures cause { IfErr result (IsBrokenOr page ((list : List Entry) → AreListed slots.now.items list → ⊥)) }
{
    let Some(place) = find_in(slots, key) else {
        return Err(broken(page));
    };
    if place.here {
        let Some((_, posting)) = entry_at(slots, place.slot) else {
            return Err(broken(page));
        };
        let Ok(copy) = Bytes::from_slice(alloc, posting) else {
            return Err(PageError::Memory);
        };
        return Ok(Some(copy));
    }
    Ok(None)
}
