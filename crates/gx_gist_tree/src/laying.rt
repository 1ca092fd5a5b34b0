//! Items, laid out on pages.

ghost use Rattle.std.specs.Prelude.{◌≡◌, ◌⊎◌, ℕ, ◌+◌, ◌-◌, ◌<◌, ◌≤◌, List, ◌++◌, length, map, take, drop, Some, All, IfOk, IfErr, IfSome, IfNone, OnOk};
ghost use Rattle.gx_slot.specs.Slots.{taken};
ghost use Rattle.gx_gist_tree.specs.Insertion.{AreKeys, IsLaid, AreValidKeys, head_len, items_but, items_in, page_with, picked};

use crate::change::Arranged;
use crate::items::GIST;
use crate::uniting::{keys_of, picked_at, united_key};
use gx_bytes::Bytes;
use gx_gist::{GistClass, Items, Sizes, picksplit};
use gx_pages::PageError;
use gx_slot::SlotPage;
use std::alloc::Global;

/// Adds the items of the slots from a place up to another one; empty slots are passed by.
fn push_items(
    alloc: Global,
    slots: &SlotPage,
    from: u16,
    to: u16,
    items: &mut Items<Bytes>,
) -> Result<(), PageError>
    requires { from ≤ to }
    ensures ok { OnOk result (items.new ≡ items.old ++ items_in (take (to - from) (drop from slots.now.items))) }
    ensures err { IfErr result (λ error. error ≡ PageError.Memory) }
{
    for slot in from..to {
        if let Some(item) = slots.item(slot) {
            let Ok(copy) = Bytes::from_slice(alloc, item) else {
                return Err(PageError::Memory);
            };
            let Ok(()) = items.push(copy) else {
                return Err(PageError::Memory);
            };
        }
    }
    Ok(())
}

/// The items of a page.
pub fn all_items(alloc: Global, slots: &SlotPage) -> Result<Items<Bytes>, PageError>
    ensures ok { IfOk result (λ items. items ≡ items_in slots.now.items) }
    ensures room { IfOk result (λ items. taken (map (λ item. Some item) items) ≤ 8176) }
    ensures err { IfErr result (λ error. error ≡ PageError.Memory) }
{
    let _free = slots.free();
    let mut items = Items::new(alloc);
    push_items(alloc, slots, 0, slots.count(), &mut items)?;
    Ok(items)
}

/// The items of a page but that of one slot.
pub fn items_without(alloc: Global, slots: &SlotPage, slot: u16) -> Result<Items<Bytes>, PageError>
    requires { slot < length slots.now.items }
    ensures ok { IfOk result (λ items. items ≡ items_but slots.now.items slot) }
    ensures room { IfOk result (λ items. taken (map (λ item. Some item) items) ≤ 8176) }
    ensures err { IfErr result (λ error. error ≡ PageError.Memory) }
{
    let _free = slots.free();
    let count = slots.count();
    let mut items = Items::new(alloc);
    push_items(alloc, slots, 0, slot, &mut items)?;
    push_items(alloc, slots, slot + 1, count, &mut items)?;
    Ok(items)
}

/// A page with these items. None where they have no room on one.
pub fn page_of(items: &[Bytes], level: u8) -> Option<SlotPage>
    ensures some { IfSome result (λ slots. slots ≡ page_with level items.now) }
    ensures none { IfNone result (8176 < taken (map (λ item. Some item) items.now)) }
{
    let mut slots = SlotPage::new(GIST, level);
    for item in items {
        if slots.add(item.as_slice()).is_err() {
            return None;
        }
    }
    Some(slots)
}

/// A page with the items at these places. None where they have no room on one.
fn page_at(items: &[Bytes], places: &[u32], level: u8) -> Option<SlotPage>
    requires { All (λ place. place < length items.now) places.now }
    ensures some { IfSome result (λ slots. slots ≡ page_with level (picked items.now places.now)) }
    ensures none { IfNone result (8176 < taken (map (λ item. Some item) (picked items.now places.now))) }
{
    let mut slots = SlotPage::new(GIST, level);
    for k in 0..places.len() {
        let item = picked_at(items, places, k);
        if slots.add(item.as_slice()).is_err() {
            return None;
        }
    }
    Some(slots)
}

/// How many bytes each item takes with its slot.
fn sizes_of(alloc: Global, items: &[Bytes]) -> Result<Sizes, PageError>
    requires { All (λ item. 4 + length item ≤ 1922) items.now }
    ensures ok { IfOk result (λ sizes. sizes ≡ map (λ item. 4 + length item) items.now) }
    ensures err { IfErr result (λ error. error ≡ PageError.Memory) }
{
    let mut sizes = Sizes::new(alloc);
    for item in items {
        let Ok(()) = sizes.push(4 + item.len() as u32) else {
            return Err(PageError::Memory);
        };
    }
    Ok(sizes)
}

/// A page on the heap: what becomes of a page is handed on by many calls, and is seldom two pages.
fn boxed(alloc: Global, slots: SlotPage) -> Result<Box<SlotPage>, PageError>
    ensures ok { IfOk result (λ boxed. boxed.value ≡ slots) }
    ensures err { IfErr result (λ error. error ≡ PageError.Memory) }
{
    match Box::new(alloc, slots) {
        Ok(boxed) => Ok(boxed),
        Err(_) => Err(PageError::Memory),
    }
}

/// Shares the items of a full page between its slots and another page.
fn share<C: GistClass>(
    alloc: Global,
    class: &C,
    slots: &mut SlotPage,
    items: &Items<Bytes>,
    page: u64,
) -> Result<Arranged<C::Key>, PageError>
    requires class { C.valid class.now }
    requires full { 8176 < taken (map (λ item. Some item) items.now) }
    requires room { taken (map (λ item. Some item) items.now) ≤ 12000 }
    ensures laid { IfOk result (IsLaid (C.valid_key class.now) (C.union_of class.now) (C.spelling class.now) slots.old.level items.now slots.new) }
    ensures valid { IfOk result (AreValidKeys (C.valid_key class.now)) }
    ensures cause { IfErr result (λ error. (error ≡ PageError.Memory) ⊎ ((error ≡ PageError.Broken page 1 0)
        × ((keys : List C.Key) → AreKeys (C.valid_key class.now) (C.spelling class.now) (head_len slots.old.level) items.now keys → ⊥))) }
{
    let level = slots.level();
    let all = items.as_slice();
    let keys = keys_of(alloc, class, all, level, page)?;
    let sizes = sizes_of(alloc, all)?;
    let Ok(sides) = picksplit(alloc, class, &keys, &sizes) else {
        return Err(PageError::Memory);
    };
    let list = keys.as_slice();
    let first = sides.left.as_slice();
    let second = sides.right.as_slice();
    let left = united_key(alloc, class, list, first)?;
    let right = united_key(alloc, class, list, second)?;
    let Some(here) = page_at(all, first, level) else {
        unreachable!();
    };
    let Some(other) = page_at(all, second, level) else {
        unreachable!();
    };
    let page = boxed(alloc, other)?;
    *slots = here;
    Ok(Arranged::Halves { left, page, right })
}

/// Lays items out anew: in the slots of a page, or where they have no room there in these and on another page.
pub fn lay_out<C: GistClass>(
    alloc: Global,
    class: &C,
    slots: &mut SlotPage,
    items: &Items<Bytes>,
    page: u64,
) -> Result<Arranged<C::Key>, PageError>
    requires class { C.valid class.now }
    requires room { taken (map (λ item. Some item) items.now) ≤ 12000 }
    ensures laid { IfOk result (IsLaid (C.valid_key class.now) (C.union_of class.now) (C.spelling class.now) slots.old.level items.now slots.new) }
    ensures valid { IfOk result (AreValidKeys (C.valid_key class.now)) }
    ensures cause { IfErr result (λ error. (error ≡ PageError.Memory) ⊎ ((error ≡ PageError.Broken page 1 0)
        × ((keys : List C.Key) → AreKeys (C.valid_key class.now) (C.spelling class.now) (head_len slots.old.level) items.now keys → ⊥))) }
{
    if let Some(one) = page_of(items.as_slice(), slots.level()) {
        *slots = one;
        return Ok(Arranged::Here);
    }
    let arranged = share(alloc, class, slots, items, page)?;
    Ok(arranged)
}
