//! A page above level 0 names what became of a page below it.

ghost use Rattle.std.specs.Prelude.{◌≡◌, ◌≢◌, ℕ, ◌+◌, ◌<◌, ◌≤◌, List, [], ◌∷◌, ◌++◌, length, map, get_or, slice_get, Bool, true, false, Option, Some, None, IfOk, IfErr, IfSome, IfNone};
ghost use Rattle.std.specs.Option.{option_map};
ghost use Rattle.gx_pages.specs.Footprints.{StaysQuiet};
ghost use Rattle.gx_pages.specs.Frees.{IsFull};
ghost use Rattle.gx_pages.specs.Pages.{HasCause};
ghost use Rattle.gx_tree.specs.Changing.{AreLinks, Links, Relinked, beside, kept_of, link_bytes};
ghost use Rattle.gx_tree.specs.Trees.{IsBrokenOr, link};

use crate::changing::{Sibling, broken};
use crate::children::child_at;
use crate::choosing::key_at;
use crate::gathering::gather;
use crate::items::Items;
use crate::orders::Change;
use crate::writing::{Right, write_items};
use gx_bytes::Bytes;
use gx_pages::{PageError, Pages};
use gx_slot::SlotPage;
use std::alloc::Global;

/// The item that names a page.
#[tactic(auto, unfolding(gx_bytes::specs::Fields::le64))]
pub fn link_item(alloc: Global, key: &[u8], page: u64) -> Result<Bytes, PageError>
    ensures item { IfOk result (λ made. made ≡ link_bytes (key.now, page)) }
    ensures err { IfErr result (λ error. error ≡ PageError.Memory) }
{
    let Ok(mut item) = Bytes::from_slice(alloc, key) else {
        return Err(PageError::Memory);
    };
    let Ok(()) = item.extend_from_slice(&page.to_le_bytes()) else {
        return Err(PageError::Memory);
    };
    Ok(item)
}

/// The item of a new page.
fn sibling_item(alloc: Global, sibling: &Option<Sibling>) -> Result<Option<Bytes>, PageError>
    ensures item { IfOk result (λ made. made ≡ option_map (λ s. link_bytes (s.key, s.page)) sibling.now) }
    ensures err { IfErr result (λ error. error ≡ PageError.Memory) }
{
    match sibling {
        None => Ok(None),
        Some(sibling) => {
            let item = link_item(alloc, sibling.key.as_slice(), sibling.page)?;
            Ok(Some(item))
        }
    }
}

/// The bytes, if there are any.
fn slice_of(item: &Option<Bytes>) -> Option<&[u8]>
    ensures { option_map (λ bytes. bytes.now) result ≡ item.now }
{
    match item {
        Some(item) => Some(item.as_slice()),
        None => None,
    }
}

/// Tells whether a page stays as it is.
fn stays(kept: bool, sibling: &Option<Sibling>) -> bool
    ensures { result ≡ true → (kept ≡ true) × (sibling.now ≡ None) }
{
    match sibling {
        Some(_) => false,
        None => kept,
    }
}

/// The key of the item in a slot, or the one that is put in. None where there is no such item.
fn kept_key<'a, C: Change>(
    change: &'a C,
    slots: &'a SlotPage,
    slot: u16,
    kept: bool,
) -> Option<&'a [u8]>
    ensures kept { kept ≡ true → (items : List (List ℕ × ℕ)) (d : List ℕ × ℕ) → slots.now.items ≡ map link items → slot < length items → option_map (λ key. key.now) result ≡ Some (get_or items slot d).0 }
    ensures own { kept ≡ false → option_map (λ key. key.now) result ≡ Some (C.sought change.now) }
{
    if kept {
        return key_at(slots, slot);
    }
    Some(change.own())
}

/// The items of a page, with one that has another key and perhaps a new one behind it.
fn linked<C: Change>(
    change: &C,
    alloc: Global,
    page: u64,
    slots: &SlotPage,
    slot: u16,
    kept: bool,
    sibling: &Option<Sibling>,
) -> Result<Items, PageError>
    ensures items { IfOk result (λ made. (front back : List (List ℕ × ℕ)) (item : List ℕ × ℕ) → slots.now.items ≡ map link (front ++ item ∷ back) → slot ≡ length front → AreLinks C.order (front ++ item ∷ back)
        → made ≡ map link_bytes (front ++ (kept_of kept item.0 (C.sought change.now), item.1) ∷ beside sibling.now ++ back)) }
    ensures cause { IfErr result (IsBrokenOr page ((front back : List (List ℕ × ℕ)) (item : List ℕ × ℕ) → slots.now.items ≡ map link (front ++ item ∷ back) → slot ≡ length front → AreLinks C.order (front ++ item ∷ back) → ⊥)) }
{
    let Some(key) = kept_key(change, slots, slot, kept) else {
        return Err(broken(page));
    };
    let Some(child) = child_at(slots, slot) else {
        return Err(broken(page));
    };
    let count = slots.count();
    if slot >= count {
        return Err(broken(page));
    }
    let one = link_item(alloc, key, child)?;
    let other = sibling_item(alloc, sibling)?;
    gather(
        alloc,
        page,
        slots,
        slot,
        slot + 1,
        one.as_slice(),
        slice_of(&other),
    )
}

/// The new page on the right of one above level 0.
fn upper_sibling(
    alloc: Global,
    page: u64,
    items: &Items,
    right: Right,
) -> Result<Sibling, PageError>
    ensures page { IfOk result (λ made. made.page ≡ right.page) }
    ensures key { IfOk result (λ made. (links : List (List ℕ × ℕ)) (d : List ℕ × ℕ) → items.now ≡ map link_bytes links → right.place < length links → made.key ≡ (get_or links right.place d).0) }
    ensures cause { IfErr result (IsBrokenOr page ((links : List (List ℕ × ℕ)) → items.now ≡ map link_bytes links → right.place < length links → ⊥)) }
{
    let Some(item) = items.get(right.place) else {
        return Err(broken(page));
    };
    let Some(end) = item.len().checked_sub(8) else {
        return Err(broken(page));
    };
    let front = &item[..end];
    let Ok(key) = Bytes::from_slice(alloc, front) else {
        return Err(PageError::Memory);
    };
    Ok(Sibling {
        key,
        page: right.page,
    })
}

/// Writes what became of the page below an item, and of its keys, to the page that has the item.
pub fn relink<P: Pages, C: Change>(
    change: &C,
    alloc: Global,
    pages: &mut P,
    kind: u8,
    level: u8,
    page: u64,
    slots: &SlotPage,
    slot: u16,
    kept: bool,
    sibling: Option<Sibling>,
) -> Result<Option<Sibling>, PageError>
    requires { page ≢ 0 }
    ensures relinked { IfOk result (λ out. P.tells → (front back : List (List ℕ × ℕ)) (item : List ℕ × ℕ) (free : List ℕ) → slots.now.items ≡ map link (front ++ item ∷ back) → slot ≡ length front
        → Links P.Pages pages.old C.order (C.sought change.now) kind level page front item back free → IfSome sibling (λ s. C.order.IsKey s.key)
        → Relinked P.Pages pages.old pages.new kind level page front (kept_of kept item.0 (C.sought change.now)) item.1 back sibling out free) }
    ensures grows { P.count pages.old ≤ P.count pages.new }
    ensures by_one { P.count pages.new ≤ P.count pages.old + 1 }
    ensures cause { IfErr result (HasCause (P.faults pages.old) (P.faults pages.new)
        (λ at expected found. P.tells → (front back : List (List ℕ × ℕ)) (item : List ℕ × ℕ) (free : List ℕ) → slots.now.items ≡ map link (front ++ item ∷ back) → slot ≡ length front
        → Links P.Pages pages.old C.order (C.sought change.now) kind level page front item back free → IfSome sibling (λ s. C.order.IsKey s.key) → ⊥) (IsFull P.tells (P.map pages.new) (P.count pages.new)) (Unit {0})) }
    ensures heap { P.heap_fetches pages.new ≡ P.heap_fetches pages.old }
    ensures quiet { StaysQuiet P.Pages pages.old pages.new }
{
    let same = stays(kept, &sibling);
    if same {
        return Ok(None);
    }
    let items = linked(change, alloc, page, slots, slot, kept, &sibling)?;
    let right = write_items(pages, kind, level, page, &items, 2)?;
    match right {
        None => Ok(None),
        Some(right) => {
            let made = upper_sibling(alloc, page, &items, right)?;
            Ok(Some(made))
        }
    }
}
