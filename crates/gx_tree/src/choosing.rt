//! The way down in a tree of rising keys.

ghost use Rattle.std.specs.Prelude.{◌≡◌, ℕ, ◌+◌, ◌<◌, List, ◌≤◌, length, map, get_or, Some, IfOk, IfErr, MatchOption};
ghost use Rattle.std.specs.Option.{option_map};
ghost use Rattle.gx_tree.specs.Changing.{AreLinks, Chosen, IsRange, Reaches};
ghost use Rattle.gx_tree.specs.Trees.{IsBrokenOr, link};

use crate::changing::broken;
use crate::orders::Seek;
use gx_pages::PageError;
use gx_slot::SlotPage;

/// The key of the item in a slot. None where there is no such item.
pub fn key_at(slots: &SlotPage, slot: u16) -> Option<&[u8]>
    ensures { (items : List (List ℕ × ℕ)) (d : List ℕ × ℕ) → slots.now.items ≡ map link items → slot < length items → option_map (λ key. key.now) result ≡ Some (get_or items slot d).0 }
{
    let item = slots.item(slot)?;
    let end = item.len().checked_sub(8)?;
    Some(&item[..end])
}

/// Tells whether the key in a slot is at most the one that is sought. None where there is no such key.
fn reached<S: Seek>(seek: &S, slots: &SlotPage, slot: u16) -> Option<bool>
    ensures { MatchOption result ((items : List (List ℕ × ℕ)) → slots.now.items ≡ map link items → AreLinks S.order items → slot < length items → ⊥)
        (λ yes. (items : List (List ℕ × ℕ)) → slots.now.items ≡ map link items → slot < length items → Reaches S.order (S.sought seek.now) items slot yes) }
{
    let Some(key) = key_at(slots, slot) else {
        return None;
    };
    let Some(yes) = seek.reaches(key) else {
        return None;
    };
    Some(yes)
}

/// Tells whether the key in a slot is at most the one that is sought.
pub fn reaches_slot<S: Seek>(
    seek: &S,
    page: u64,
    slots: &SlotPage,
    slot: u16,
) -> Result<bool, PageError>
    ensures found { IfOk result (λ yes. (items : List (List ℕ × ℕ)) → slots.now.items ≡ map link items → slot < length items → Reaches S.order (S.sought seek.now) items slot yes) }
    ensures cause { IfErr result (IsBrokenOr page ((items : List (List ℕ × ℕ)) → slots.now.items ≡ map link items → AreLinks S.order items → slot < length items → ⊥)) }
{
    match reached(seek, slots, slot) {
        Some(yes) => Ok(yes),
        None => Err(broken(page)),
    }
}

/// The slot of the last item whose key is at most the one that is sought, or the first slot.
pub fn choose<S: Seek>(seek: &S, page: u64, slots: &SlotPage) -> Result<u16, PageError>
    ensures chosen { IfOk result (λ slot. (items : List (List ℕ × ℕ)) → slots.now.items ≡ map link items → Chosen S.order (S.sought seek.now) items slot) }
    ensures cause { IfErr result (IsBrokenOr page ((items : List (List ℕ × ℕ)) → slots.now.items ≡ map link items → AreLinks S.order items → 0 < length items → ⊥)) }
{
    let count = slots.count();
    if count == 0 {
        return Err(broken(page));
    }
    choose_between(seek, page, slots, 0, count)
}

/// The same among the slots from one on up to another, by halving.
fn choose_between<S: Seek>(
    seek: &S,
    page: u64,
    slots: &SlotPage,
    slot: u16,
    end: u16,
) -> Result<u16, PageError>
    requires { slot < end }
    ensures chosen { IfOk result (λ found. (items : List (List ℕ × ℕ)) → slots.now.items ≡ map link items → IsRange S.order (S.sought seek.now) items slot end → Chosen S.order (S.sought seek.now) items found) }
    ensures cause { IfErr result (IsBrokenOr page ((items : List (List ℕ × ℕ)) → slots.now.items ≡ map link items → AreLinks S.order items → end ≤ length items → ⊥)) }
{
    let rest = end - slot;
    if rest == 1 {
        return Ok(slot);
    }
    let middle = slot + rest / 2;
    let yes = reaches_slot(seek, page, slots, middle)?;
    if yes {
        return choose_between(seek, page, slots, middle, end);
    }
    choose_between(seek, page, slots, slot, middle)
}
