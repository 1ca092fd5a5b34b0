//! A change of items of level 0 in a tree of rising keys.

ghost use Rattle.std.specs.Prelude.{◌≡◌, ◌≢◌, ℕ, zero, suc, ◌+◌, ◌<◌, ◌≤◌, List, [], ◌∷◌, ◌++◌, length, map, slice_get, Option, Some, None, IfOk, IfErr, IfSome};
ghost use Rattle.gx_pages.specs.Footprints.{StaysQuiet};
ghost use Rattle.gx_pages.specs.Frees.{IsFull};
ghost use Rattle.gx_pages.specs.Pages.{HasCause};
ghost use Rattle.gx_chain.specs.Chains.{IsSound};
ghost use Rattle.gx_tree.specs.Changing.{Begins, Ends};
ghost use Rattle.gx_tree.specs.Trees.{IsBrokenOr, Node, slots_of};

use crate::children::child_at;
use crate::choosing::{choose, reaches_slot};
use crate::fetching::fetch_level;
use crate::gathering::gather;
use crate::items::Items;
use crate::orders::Change;
use crate::relinking::relink;
use crate::writing::{Right, write_items};
use gx_bytes::Bytes;
use gx_pages::{PageError, Pages};
use gx_slot::SlotPage;
use std::alloc::Global;

/// A new page on the right of another one, and the least key below it.
#[derive(Debug, Drop)]
pub struct Sibling {
    pub key: Bytes,
    pub page: u64,
}

/// A page isn't as it has to be.
pub fn broken(page: u64) -> PageError
    ensures { result ≡ PageError.Broken page 1 0 }
{
    PageError::Broken {
        page,
        expected: 1,
        found: 0,
    }
}

/// The new page of level 0 on the right of another one.
fn leaf_sibling<C: Change>(
    change: &C,
    alloc: Global,
    page: u64,
    items: &Items,
    right: Right,
) -> Result<Sibling, PageError>
    ensures page { IfOk result (λ made. made.page ≡ right.page) }
    ensures key { IfOk result (λ made. (least end : Option (List ℕ)) → C.order.AreIn least end items.now → (item : List ℕ) × (slice_get items.now right.place ≡ Some item) × C.order.IsLeast item made.key) }
    ensures cause { IfErr result (IsBrokenOr page ((least end : Option (List ℕ)) → C.order.AreIn least end items.now → right.place < length items.now → ⊥)) }
{
    let Some(item) = items.get(right.place) else {
        return Err(broken(page));
    };
    let Ok(found) = change.key_of(alloc, item) else {
        return Err(PageError::Memory);
    };
    let Some(key) = found else {
        return Err(broken(page));
    };
    Ok(Sibling {
        key,
        page: right.page,
    })
}

/// Changes the items of a page of level 0.
fn change_leaf<P: Pages, C: Change>(
    change: &C,
    alloc: Global,
    pages: &mut P,
    kind: u8,
    page: u64,
    slots: &SlotPage,
) -> Result<Option<Sibling>, PageError>
    requires { page ≢ 0 }
    ensures ends { IfOk result (λ sibling. P.tells → (least end : Option (List ℕ)) (node : Node 0) (free : List ℕ) → Begins P.Pages pages.old C.order (C.sought change.now) (C.allows change.now) kind 0 page least end node free
        → slots.now ≡ slots_of kind 0 node → Ends P.Pages pages.old pages.new C.order (C.edits change.now) kind 0 page least end node free sibling) }
    ensures grows { P.count pages.old ≤ P.count pages.new }
    ensures by_one { P.count pages.new ≤ P.count pages.old + 1 }
    ensures cause { IfErr result (HasCause (P.faults pages.old) (P.faults pages.new)
        (λ at expected found. P.tells → (least end : Option (List ℕ)) (node : Node 0) (free : List ℕ) → Begins P.Pages pages.old C.order (C.sought change.now) (C.allows change.now) kind 0 page least end node free
        → slots.now ≡ slots_of kind 0 node → ⊥) (IsFull P.tells (P.map pages.new) (P.count pages.new)) (Unit {0})) }
    ensures heap { P.heap_fetches pages.new ≡ P.heap_fetches pages.old }
    ensures quiet { StaysQuiet P.Pages pages.old pages.new }
{
    let Ok(found) = change.edit(alloc, slots) else {
        return Err(PageError::Memory);
    };
    let Some(edit) = found else {
        return Err(broken(page));
    };
    let items = gather(
        alloc,
        page,
        slots,
        edit.place,
        edit.behind,
        edit.item.as_slice(),
        None,
    )?;
    let right = write_items(pages, kind, 0, page, &items, 1)?;
    match right {
        None => Ok(None),
        Some(right) => {
            let sibling = leaf_sibling(change, alloc, page, &items, right)?;
            Ok(Some(sibling))
        }
    }
}

/// Makes a change below a page.
#[cycle(change)]
pub fn change_below<P: Pages, C: Change>(
    change: &C,
    alloc: Global,
    pages: &mut P,
    kind: u8,
    page: u64,
    level: u8,
) -> Result<Option<Sibling>, PageError>
    ensures ends { IfOk result (λ sibling. P.tells → (least end : Option (List ℕ)) (node : Node level) (free : List ℕ) → Begins P.Pages pages.old C.order (C.sought change.now) (C.allows change.now) kind level page least end node free
        → Ends P.Pages pages.old pages.new C.order (C.edits change.now) kind level page least end node free sibling) }
    ensures grows { P.count pages.old ≤ P.count pages.new }
    ensures by { P.count pages.new ≤ P.count pages.old + (level + 1) }
    ensures cause { IfErr result (HasCause (P.faults pages.old) (P.faults pages.new)
        (λ at expected found. P.tells → (least end : Option (List ℕ)) (node : Node level) (free : List ℕ) → Begins P.Pages pages.old C.order (C.sought change.now) (C.allows change.now) kind level page least end node free → ⊥)
        (IsFull P.tells (P.map pages.new) (P.count pages.new)) (Unit {0})) }
    ensures heap { kind ≢ 2 → IsSound result → P.heap_fetches pages.new ≡ P.heap_fetches pages.old }
    ensures quiet { StaysQuiet P.Pages pages.old pages.new }
{
    let slots = fetch_level(pages, page, kind, level)?;
    if level == 0 {
        return change_leaf(change, alloc, pages, kind, page, &slots);
    }
    change_under(change, alloc, pages, kind, page, level - 1, &slots)
}

/// Makes a change below an item of a page; `below` is the level below it.
#[cycle(change)]
fn change_under<P: Pages, C: Change>(
    change: &C,
    alloc: Global,
    pages: &mut P,
    kind: u8,
    page: u64,
    below: u8,
    slots: &SlotPage,
) -> Result<Option<Sibling>, PageError>
    requires nonzero { page ≢ 0 }
    requires level { below < 255 }
    ensures ends { IfOk result (λ sibling. P.tells → (least end : Option (List ℕ)) (node : Node (suc below)) (free : List ℕ)
        → Begins P.Pages pages.old C.order (C.sought change.now) (C.allows change.now) kind (suc below) page least end node free → slots.now ≡ slots_of kind (suc below) node
        → Ends P.Pages pages.old pages.new C.order (C.edits change.now) kind (suc below) page least end node free sibling) }
    ensures grows { P.count pages.old ≤ P.count pages.new }
    ensures by { P.count pages.new ≤ P.count pages.old + (below + 2) }
    ensures cause { IfErr result (HasCause (P.faults pages.old) (P.faults pages.new)
        (λ at expected found. P.tells → (least end : Option (List ℕ)) (node : Node (suc below)) (free : List ℕ)
        → Begins P.Pages pages.old C.order (C.sought change.now) (C.allows change.now) kind (suc below) page least end node free → slots.now ≡ slots_of kind (suc below) node → ⊥)
        (IsFull P.tells (P.map pages.new) (P.count pages.new)) (Unit {0})) }
    ensures heap { kind ≢ 2 → IsSound result → P.heap_fetches pages.new ≡ P.heap_fetches pages.old }
    ensures quiet { StaysQuiet P.Pages pages.old pages.new }
{
    let slot = choose(change, page, slots)?;
    let Some(child) = child_at(slots, slot) else {
        return Err(broken(page));
    };
    let kept = reaches_slot(change, page, slots, slot)?;
    let sibling = change_below(change, alloc, pages, kind, child, below)?;
    relink(
        change,
        alloc,
        pages,
        kind,
        below + 1,
        page,
        slots,
        slot,
        kept,
        sibling,
    )
}
