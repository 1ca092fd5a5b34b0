//! Items that an insert adds to a page or puts in place of another one.

ghost use Rattle.std.specs.Prelude.{◌≡◌, ◌⊎◌, ℕ, ◌+◌, ◌<◌, ◌≤◌, List, [], ◌∷◌, ◌++◌, length, map, Some, IsSome, IfOk, IfErr};
ghost use Rattle.gx_slot.specs.Slots.{item_at, taken};
ghost use Rattle.gx_gist_tree.specs.OnPages.{inner_item, leaf_item};
ghost use Rattle.gx_gist_tree.specs.Insertion.{AreKeys, AreValidKeys, HasValidKeys, IsAdded, IsLaid, IsReplaced, head_len, inner_items, items_but, items_in};

use crate::change::{Arranged, Change};
use crate::items::{inner_bytes, leaf_bytes};
use crate::laying::{all_items, items_without, lay_out};
use gx_bytes::Bytes;
use gx_gist::GistClass;
use gx_pages::{PageError, RowRef};
use gx_slot::SlotPage;
use std::alloc::Global;

/// Lays the items of a page out anew, with one more.
fn lay_with<C: GistClass>(
    alloc: Global,
    class: &C,
    slots: &mut SlotPage,
    page: u64,
    item: Bytes,
) -> Result<Arranged<C::Key>, PageError>
    requires class { C.valid class.now }
    requires small { length item ≤ 1918 }
    ensures laid { IfOk result (IsLaid (C.valid_key class.now) (C.union_of class.now) (C.spelling class.now) slots.old.level (items_in slots.old.items ++ item ∷ []) slots.new) }
    ensures valid { IfOk result (AreValidKeys (C.valid_key class.now)) }
    ensures cause { IfErr result (λ error. (error ≡ PageError.Memory) ⊎ ((error ≡ PageError.Broken page 1 0)
        × ((keys : List C.Key) → AreKeys (C.valid_key class.now) (C.spelling class.now) (head_len slots.old.level) (items_in slots.old.items ++ item ∷ []) keys → ⊥))) }
{
    let mut items = all_items(alloc, slots)?;
    let Ok(()) = items.push(item) else {
        return Err(PageError::Memory);
    };
    let arranged = lay_out(alloc, class, slots, &items, page)?;
    Ok(arranged)
}

/// Adds a row to a page of level 0.
pub fn add_row<C: GistClass>(
    alloc: Global,
    class: &C,
    slots: &mut SlotPage,
    page: u64,
    row: RowRef,
    key: &C::Key,
) -> Result<Arranged<C::Key>, PageError>
    requires class { C.valid class.now }
    requires key { C.valid_key class.now key.now }
    ensures added { IfOk result (IsAdded (C.valid_key class.now) (C.union_of class.now) (C.spelling class.now) slots.old (leaf_item (C.spelling class.now) (row, key.now)) slots.new) }
    ensures valid { IfOk result (AreValidKeys (C.valid_key class.now)) }
    ensures cause { IfErr result (λ error. (error ≡ PageError.Memory) ⊎ ((error ≡ PageError.Broken page 1 0)
        × ((keys : List C.Key) → AreKeys (C.valid_key class.now) (C.spelling class.now) (head_len slots.old.level) (items_in slots.old.items ++ leaf_item (C.spelling class.now) (row, key.now) ∷ []) keys → ⊥))) }
{
    let item = leaf_bytes(alloc, class, row, key)?;
    if slots.add(item.as_slice()).is_ok() {
        return Ok(Arranged::Here);
    }
    let arranged = lay_with(alloc, class, slots, page, item)?;
    Ok(arranged)
}

/// Lays the items of a page out anew, but that of one slot, with one more.
fn lay_in_place<C: GistClass>(
    alloc: Global,
    class: &C,
    slots: &mut SlotPage,
    page: u64,
    slot: u16,
    item: Bytes,
) -> Result<Arranged<C::Key>, PageError>
    requires class { C.valid class.now }
    requires small { length item ≤ 1918 }
    requires below { slot < length slots.old.items }
    ensures laid { IfOk result (IsLaid (C.valid_key class.now) (C.union_of class.now) (C.spelling class.now) slots.old.level (items_but slots.old.items slot ++ item ∷ []) slots.new) }
    ensures valid { IfOk result (AreValidKeys (C.valid_key class.now)) }
    ensures cause { IfErr result (λ error. (error ≡ PageError.Memory) ⊎ ((error ≡ PageError.Broken page 1 0)
        × ((keys : List C.Key) → AreKeys (C.valid_key class.now) (C.spelling class.now) (head_len slots.old.level) (items_but slots.old.items slot ++ item ∷ []) keys → ⊥))) }
{
    let mut items = items_without(alloc, slots, slot)?;
    let Ok(()) = items.push(item) else {
        return Err(PageError::Memory);
    };
    let arranged = lay_out(alloc, class, slots, &items, page)?;
    Ok(arranged)
}

/// Unites the key of an item with a new one below it.
fn widen<C: GistClass>(
    alloc: Global,
    class: &C,
    slots: &mut SlotPage,
    page: u64,
    slot: u16,
    child: u64,
    at: &C::Key,
    key: &C::Key,
) -> Result<Arranged<C::Key>, PageError>
    requires class { C.valid class.now }
    requires at { C.valid_key class.now at.now }
    requires key { C.valid_key class.now key.now }
    requires below { slot < length slots.old.items }
    requires there { IsSome (item_at slots.old.items slot) }
    ensures replaced { IfOk result (IsReplaced (C.valid_key class.now) (C.union_of class.now) (C.spelling class.now) slots.old slot child at.now (C.union_of class.now at.now key.now) Change.Within slots.new) }
    ensures valid { IfOk result (AreValidKeys (C.valid_key class.now)) }
    ensures cause { IfErr result (λ error. (error ≡ PageError.Memory) ⊎ ((error ≡ PageError.Broken page 1 0)
        × ((keys : List C.Key) → AreKeys (C.valid_key class.now) (C.spelling class.now) (head_len slots.old.level) (items_but slots.old.items slot ++ inner_item (C.spelling class.now) child (C.union_of class.now at.now key.now) ∷ []) keys → ⊥))) }
{
    let Ok(united) = class.union(alloc, at, key) else {
        return Err(PageError::Memory);
    };
    if class.same(at, &united) {
        return Ok(Arranged::Same);
    }
    let item = inner_bytes(alloc, class, child, &united)?;
    if slots.replace(slot, item.as_slice()).is_ok() {
        return Ok(Arranged::Here);
    }
    let arranged = lay_in_place(alloc, class, slots, page, slot, item)?;
    Ok(arranged)
}

/// Puts both halves of a page in place of its item.
fn put_halves<C: GistClass>(
    alloc: Global,
    class: &C,
    slots: &mut SlotPage,
    page: u64,
    slot: u16,
    child: u64,
    left: &C::Key,
    other: u64,
    right: &C::Key,
) -> Result<Arranged<C::Key>, PageError>
    requires class { C.valid class.now }
    requires left { C.valid_key class.now left.now }
    requires right { C.valid_key class.now right.now }
    requires below { slot < length slots.old.items }
    ensures laid { IfOk result (IsLaid (C.valid_key class.now) (C.union_of class.now) (C.spelling class.now) slots.old.level
        (items_but slots.old.items slot ++ inner_item (C.spelling class.now) child left.now ∷ inner_item (C.spelling class.now) other right.now ∷ []) slots.new) }
    ensures valid { IfOk result (AreValidKeys (C.valid_key class.now)) }
    ensures cause { IfErr result (λ error. (error ≡ PageError.Memory) ⊎ ((error ≡ PageError.Broken page 1 0)
        × ((keys : List C.Key) → AreKeys (C.valid_key class.now) (C.spelling class.now) (head_len slots.old.level)
        (items_but slots.old.items slot ++ inner_item (C.spelling class.now) child left.now ∷ inner_item (C.spelling class.now) other right.now ∷ []) keys → ⊥))) }
{
    let first = inner_bytes(alloc, class, child, left)?;
    let second = inner_bytes(alloc, class, other, right)?;
    let mut items = items_without(alloc, slots, slot)?;
    let Ok(()) = items.push(first) else {
        return Err(PageError::Memory);
    };
    let Ok(()) = items.push(second) else {
        return Err(PageError::Memory);
    };
    let arranged = lay_out(alloc, class, slots, &items, page)?;
    Ok(arranged)
}

/// Puts what an insert made of the page below an item in its place.
pub fn replace_item<C: GistClass>(
    alloc: Global,
    class: &C,
    slots: &mut SlotPage,
    page: u64,
    slot: u16,
    child: u64,
    at: &C::Key,
    key: &C::Key,
    change: &Change<C::Key>,
) -> Result<Arranged<C::Key>, PageError>
    requires class { C.valid class.now }
    requires at { C.valid_key class.now at.now }
    requires key { C.valid_key class.now key.now }
    requires change { HasValidKeys (C.valid_key class.now) change.now }
    requires below { slot < length slots.old.items }
    requires there { IsSome (item_at slots.old.items slot) }
    ensures replaced { IfOk result (IsReplaced (C.valid_key class.now) (C.union_of class.now) (C.spelling class.now) slots.old slot child at.now (C.union_of class.now at.now key.now) change.now slots.new) }
    ensures valid { IfOk result (AreValidKeys (C.valid_key class.now)) }
    ensures cause { IfErr result (λ error. (error ≡ PageError.Memory) ⊎ ((error ≡ PageError.Broken page 1 0)
        × ((keys : List C.Key) → AreKeys (C.valid_key class.now) (C.spelling class.now) (head_len slots.old.level)
        (items_but slots.old.items slot ++ inner_items (C.spelling class.now) child (C.union_of class.now at.now key.now) change.now) keys → ⊥))) }
{
    match change {
        Change::Within => {
            let arranged = widen(alloc, class, slots, page, slot, child, at, key)?;
            Ok(arranged)
        }
        Change::Split {
            left,
            page: other,
            right,
        } => {
            let arranged = put_halves(alloc, class, slots, page, slot, child, left, *other, right)?;
            Ok(arranged)
        }
    }
}
