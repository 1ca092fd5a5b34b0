//! Where an insert goes down.

ghost use Rattle.std.specs.Prelude.{◌≡◌, ◌⊎◌, ℕ, ◌^◌, ◌<◌, List, length, map, Option, Some, All, IsSome, IfOk, IfErr, OnOk};
ghost use Rattle.gx_slot.specs.Slots.{item_at};
ghost use Rattle.gx_gist_tree.specs.OnPages.{inner_item};
ghost use Rattle.gx_gist_tree.specs.Insertion.{IsLeastPlace};

use crate::items::inner_parts;
use crate::reading::no_item;
use gx_gist::{GistClass, OnBytes};
use gx_pages::PageError;
use gx_slot::SlotPage;
use std::alloc::Global;

/// How much the key of a slot's item grows where another is united with it.
fn penalty_at<C: OnBytes>(
    alloc: Global,
    class: &C,
    slots: &SlotPage,
    slot: u16,
    page: u64,
    key: &C::Key,
) -> Result<u128, PageError>
    requires class { C.valid class.now }
    requires key { C.valid_key class.now key.now }
    ensures some { (child : ℕ) (at : C.Key) → C.valid_key class.now at → item_at slots.now.items slot ≡ Some (inner_item (C.spelling class.now) child at)
        → IfOk result (λ penalty. penalty ≡ C.growth class.now at key.now) }
    ensures cause { IfErr result (λ error. (error ≡ PageError.Memory) ⊎ ((error ≡ PageError.Broken page 1 0)
        × ((child : ℕ) (at : C.Key) → C.valid_key class.now at → item_at slots.now.items slot ≡ Some (inner_item (C.spelling class.now) child at) → ⊥))) }
{
    let Some(item) = slots.item(slot) else {
        return Err(no_item(page));
    };
    let Some((_child, bytes)) = inner_parts(item) else {
        return Err(no_item(page));
    };
    let Ok(found) = class.penalty_bytes(alloc, bytes, key) else {
        return Err(PageError::Memory);
    };
    let Some(penalty) = found else {
        return Err(no_item(page));
    };
    Ok(penalty)
}

/// The first slot whose key grows least where another is united with it.
pub fn slot_for<C: OnBytes>(
    alloc: Global,
    class: &C,
    slots: &SlotPage,
    page: u64,
    key: &C::Key,
) -> Result<u16, PageError>
    requires class { C.valid class.now }
    requires key { C.valid_key class.now key.now }
    ensures below { IfOk result (λ slot. slot < length slots.now.items) }
    ensures least { IfOk result (λ slot. (items : List (ℕ × C.Key)) → All (λ item. C.valid_key class.now item.1) items
        → slots.now.items ≡ map (λ item. Some (inner_item (C.spelling class.now) item.0 item.1)) items
        → IsLeastPlace (map (λ item. C.growth class.now item.1 key.now) items) slot) }
    ensures cause { IfErr result (λ error. (error ≡ PageError.Memory) ⊎ ((error ≡ PageError.Broken page 1 0)
        × ((items : List (ℕ × C.Key)) → 0 < length items → All (λ item. C.valid_key class.now item.1) items
        → slots.now.items ≡ map (λ item. Some (inner_item (C.spelling class.now) item.0 item.1)) items → ⊥))) }
{
    let count = slots.count();
    if count == 0 {
        return Err(no_item(page));
    }
    let mut best = 0;
    let mut least = penalty_at(alloc, class, slots, 0, page, key)?;
    for slot in 1..count {
        if least == 0 {
            return Ok(best);
        }
        let penalty = penalty_at(alloc, class, slots, slot, page, key)?;
        if penalty < least {
            best = slot;
            least = penalty;
        }
    }
    Ok(best)
}

/// The page below a slot's item, and its key.
pub fn child_with_key<C: GistClass>(
    alloc: Global,
    class: &C,
    slots: &SlotPage,
    slot: u16,
    page: u64,
) -> Result<(u64, C::Key), PageError>
    requires class { C.valid class.now }
    ensures some { (child : ℕ) (key : C.Key) → C.valid_key class.now key → child < 2 ^ 64 → item_at slots.now.items slot ≡ Some (inner_item (C.spelling class.now) child key)
        → IfOk result (λ found. (found.0 ≡ child) × (found.1 ≡ key)) }
    ensures valid { IfOk result (λ found. C.valid_key class.now found.1) }
    ensures there { OnOk result (IsSome (item_at slots.now.items slot)) }
    ensures cause { IfErr result (λ error. (error ≡ PageError.Memory) ⊎ ((error ≡ PageError.Broken page 1 0)
        × ((child : ℕ) (key : C.Key) → C.valid_key class.now key → item_at slots.now.items slot ≡ Some (inner_item (C.spelling class.now) child key) → ⊥))) }
{
    let Some(item) = slots.item(slot) else {
        return Err(no_item(page));
    };
    let Some((child, bytes)) = inner_parts(item) else {
        return Err(no_item(page));
    };
    let Ok(found) = class.read(alloc, bytes) else {
        return Err(PageError::Memory);
    };
    let Some(key) = found else {
        return Err(no_item(page));
    };
    Ok((child, key))
}
