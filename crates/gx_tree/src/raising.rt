//! A tree that is changed, and may get one more level.

ghost use Rattle.std.specs.Prelude.{◌≡◌, ◌≢◌, ℕ, zero, suc, ◌+◌, ◌^◌, ◌<◌, ◌≤◌, List, [], ◌∷◌, ◌++◌, length, map, get_or, Option, Some, None, IfOk, IfErr, OnOk};
ghost use Rattle.std.specs.List.{AllByRecursion};
ghost use Rattle.gx_pages.specs.Footprints.{StaysQuiet};
ghost use Rattle.gx_pages.specs.Frees.{IsFull};
ghost use Rattle.gx_pages.specs.Pages.{HasCause};
ghost use Rattle.gx_slot.specs.Slots.{Slots, Fits};
ghost use Rattle.gx_chain.specs.Chains.{IsSound};
ghost use Rattle.gx_tree.specs.Changing.{Changed, Pair, Raised, link_bytes};
ghost use Rattle.gx_tree.specs.Orders.{IsKeyed};
ghost use Rattle.gx_tree.specs.Trees.{HoldsBeside, IsBrokenOr, Node, Tree, entries, link, slots, slots_of};

use crate::changing::{Sibling, broken, change_below};
use crate::choosing::key_at;
use crate::fetching::{LEVELS, fetch_level, fetch_top};
use crate::orders::Change;
use crate::relinking::link_item;
use gx_bytes::Bytes;
use gx_pages::{PageError, Pages};
use gx_slot::SlotPage;
use std::alloc::Global;

/// The least key of a page that has items.
fn first_key<C: Change>(
    change: &C,
    alloc: Global,
    page: u64,
    slots: &SlotPage,
) -> Result<Bytes, PageError>
    ensures leaf { IfOk result (λ key. slots.now.level ≡ 0 → (least end : Option (List ℕ)) (item : List ℕ) (items : List (List ℕ)) → slots.now.items ≡ map (λ item. Some item) (item ∷ items)
        → C.order.AreIn least end (item ∷ items) → C.order.IsLeast item key) }
    ensures upper { IfOk result (λ key. slots.now.level ≢ 0 → (item : List ℕ × ℕ) (items : List (List ℕ × ℕ)) → slots.now.items ≡ map link (item ∷ items) → key ≡ item.0) }
    ensures cause { IfErr result (IsBrokenOr page ((slots.now.level ≡ 0 → (least end : Option (List ℕ)) (item : List ℕ) (items : List (List ℕ)) → slots.now.items ≡ map (λ item. Some item) (item ∷ items)
        → C.order.AreIn least end (item ∷ items) → ⊥) × (slots.now.level ≢ 0 → (item : List ℕ × ℕ) (items : List (List ℕ × ℕ)) → slots.now.items ≡ map link (item ∷ items) → ⊥))) }
{
    let level = slots.level();
    if level == 0 {
        return leaf_key(change, alloc, page, slots);
    }
    let Some(key) = key_at(slots, 0) else {
        return Err(broken(page));
    };
    let Ok(made) = Bytes::from_slice(alloc, key) else {
        return Err(PageError::Memory);
    };
    Ok(made)
}

/// The least key of a page of level 0 that has items.
fn leaf_key<C: Change>(
    change: &C,
    alloc: Global,
    page: u64,
    slots: &SlotPage,
) -> Result<Bytes, PageError>
    ensures leaf { IfOk result (λ key. (least end : Option (List ℕ)) (item : List ℕ) (items : List (List ℕ)) → slots.now.items ≡ map (λ item. Some item) (item ∷ items)
        → C.order.AreIn least end (item ∷ items) → C.order.IsLeast item key) }
    ensures cause { IfErr result (IsBrokenOr page ((least end : Option (List ℕ)) (item : List ℕ) (items : List (List ℕ)) → slots.now.items ≡ map (λ item. Some item) (item ∷ items)
        → C.order.AreIn least end (item ∷ items) → ⊥)) }
{
    let Some(item) = slots.item(0) else {
        return Err(broken(page));
    };
    let Ok(found) = change.key_of(alloc, item) else {
        return Err(PageError::Memory);
    };
    let Some(key) = found else {
        return Err(broken(page));
    };
    Ok(key)
}

/// A page that names two pages.
fn page_of_two(
    kind: u8,
    level: u8,
    page: u64,
    one: &[u8],
    other: &[u8],
) -> Result<SlotPage, PageError>
    ensures made { IfOk result (λ made. made ≡ slots kind level (Some one.now ∷ Some other.now ∷ [])) }
    ensures cause { IfErr result (IsBrokenOr page (length one.now ≤ 1911 → length other.now ≤ 1911 → ⊥)) }
{
    let mut top = SlotPage::new(kind, level);
    match top.add(one) {
        Ok(_) => (),
        Err(_) => return Err(broken(page)),
    }
    match top.add(other) {
        Ok(_) => (),
        Err(_) => return Err(broken(page)),
    }
    Ok(top)
}

/// Moves the items of the root page to a new page, and puts the items of both halves in their place.
fn raise<P: Pages, C: Change>(
    change: &C,
    alloc: Global,
    pages: &mut P,
    kind: u8,
    root: u64,
    level: u8,
    sibling: &Sibling,
) -> Result<(), PageError>
    requires { level < 50 }
    ensures raised { OnOk result (P.tells → (left other : Node level) (free : List ℕ) → Pair P.Pages pages.old C.order kind level root left sibling.now.key other sibling.now.page free
        → Raised P.Pages pages.old pages.new C.order kind level root left other free) }
    ensures grows { P.count pages.old ≤ P.count pages.new }
    ensures by_one { P.count pages.new ≤ P.count pages.old + 1 }
    ensures cause { IfErr result (HasCause (P.faults pages.old) (P.faults pages.new)
        (λ at expected found. P.tells → (left other : Node level) (free : List ℕ) → Pair P.Pages pages.old C.order kind level root left sibling.now.key other sibling.now.page free → ⊥)
        (IsFull P.tells (P.map pages.new) (P.count pages.new)) (Unit {0})) }
    ensures heap { kind ≢ 2 → IsSound result → P.heap_fetches pages.new ≡ P.heap_fetches pages.old }
    ensures quiet { StaysQuiet P.Pages pages.old pages.new }
{
    let up = level + 1;
    if up >= LEVELS {
        return Err(broken(root));
    }
    let slots = fetch_level(pages, root, kind, level)?;
    let key = first_key(change, alloc, root, &slots)?;
    let left = pages.take()?;
    let one = link_item(alloc, key.as_slice(), left)?;
    let other = link_item(alloc, sibling.key.as_slice(), sibling.page)?;
    let top = page_of_two(kind, up, root, one.as_slice(), other.as_slice())?;
    pages.put(left, slots.page())?;
    pages.put(root, top.page())?;
    Ok(())
}

/// Makes a change in a tree of rising keys. Its root page stays.
pub fn change_tree<P: Pages, C: Change>(
    change: &C,
    alloc: Global,
    pages: &mut P,
    kind: u8,
    root: u64,
) -> Result<(), PageError>
    ensures changed { OnOk result (P.tells → (tree : Tree) (free : List ℕ) → HoldsBeside P.Pages pages.old kind root tree free → IsKeyed C.order tree.0 None None tree.1
        → C.order.IsKey (C.sought change.now) → AllByRecursion (C.allows change.now) (entries tree) → Changed P.Pages pages.old pages.new C.order (C.edits change.now) kind root tree free) }
    ensures grows { P.count pages.old ≤ P.count pages.new }
    ensures by { P.count pages.new ≤ P.count pages.old + 60 }
    ensures cause { IfErr result (HasCause (P.faults pages.old) (P.faults pages.new)
        (λ at expected found. P.tells → (tree : Tree) (free : List ℕ) → HoldsBeside P.Pages pages.old kind root tree free → IsKeyed C.order tree.0 None None tree.1 → C.order.IsKey (C.sought change.now) → AllByRecursion (C.allows change.now) (entries tree) → ⊥)
        (IsFull P.tells (P.map pages.new) (P.count pages.new)) (Unit {0})) }
    ensures heap { kind ≢ 2 → IsSound result → P.heap_fetches pages.new ≡ P.heap_fetches pages.old }
    ensures quiet { StaysQuiet P.Pages pages.old pages.new }
{
    let top = fetch_top(pages, root, kind)?;
    let level = top.level();
    let sibling = change_below(change, alloc, pages, kind, root, level)?;
    match sibling {
        None => Ok(()),
        Some(sibling) => {
            raise(change, alloc, pages, kind, root, level, &sibling)?;
            Ok(())
        }
    }
}
