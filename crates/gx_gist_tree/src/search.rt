//! The search.

ghost use Rattle.std.specs.Prelude.{◌≡◌, ◌⊎◌, ℕ, suc, ◌+◌, ◌^◌, ◌<◌, ◌≤◌, List, [], ◌∷◌, ◌++◌, map, filter, Option, Some, None, All, IfOk, IfErr, IfSome, OnOk, IsPermutation, if◌then◌else◌};
ghost use Rattle.std.specs.Option.{option_map};
ghost use Rattle.std.specs.List.{filter_map};
ghost use Rattle.gx_pages.specs.declared.row.RowRef.{RowRef};
ghost use Rattle.gx_pages.specs.Footprints.{IsOutside, StaysQuiet};
ghost use Rattle.gx_pages.specs.Pages.{HasCause};
ghost use Rattle.gx_slot.specs.Slots.{IsBroken, item_at};
ghost use Rattle.gx_chain.specs.Chains.{IsSound as IsUnbroken};
ghost use Rattle.gx_gist_tree.specs.Trees.{Entry, Node, found, page_of, pages_of, passes, visits};
ghost use Rattle.gx_gist_tree.specs.OnPages.{AreFresh, FitsFields, IsBelow, IsRead, leaf_item, inner_item};

use crate::found::Found;
use crate::items::{inner_parts, leaf_parts};
use crate::reading::{fetch_level, no_item};
use gx_gist::{OnBytes, Test};
use gx_pages::{PageError, Pages, RowRef};
use gx_slot::SlotPage;
use std::alloc::Global;

// The test isn't No.
fn goes_on(test: Test) -> bool
    ensures { result ≡ passes test }
{
    !matches!(test, Test::No)
}

/// The row in a slot of a page of level 0, where its key doesn't rule the query out.
fn row_at<C: OnBytes>(
    alloc: Global,
    class: &C,
    slots: &SlotPage,
    slot: u16,
    page: u64,
    query: &C::Query,
) -> Result<Option<RowRef>, PageError>
    requires class { C.valid class.now }
    requires query { C.valid_query class.now query.now }
    ensures none { item_at slots.now.items slot ≡ None → IfOk result (λ row. row ≡ None) }
    ensures some { (e : Entry C.Key) → C.valid_key class.now e.1 → FitsFields e.0 → item_at slots.now.items slot ≡ Some (leaf_item (C.spelling class.now) e)
        → IfOk result (λ row. row ≡ (if passes (C.leaf_test class.now e.1 query.now) then Some e.0 else None)) }
    ensures cause { IfErr result (λ error. (error ≡ PageError.Memory) ⊎ ((error ≡ PageError.Broken page 1 0)
        × ((item_at slots.now.items slot ≡ None → ⊥) × ((e : Entry C.Key) → C.valid_key class.now e.1 → item_at slots.now.items slot ≡ Some (leaf_item (C.spelling class.now) e) → ⊥)))) }
{
    let Some(item) = slots.item(slot) else {
        return Ok(None);
    };
    let Some((row, key)) = leaf_parts(item) else {
        return Err(no_item(page));
    };
    let Ok(tested) = class.test_bytes(alloc, key, true, query) else {
        return Err(PageError::Memory);
    };
    let Some(test) = tested else {
        return Err(no_item(page));
    };
    if goes_on(test) {
        Ok(Some(row))
    } else {
        Ok(None)
    }
}

/// The page below a slot's item, where its key doesn't rule the query out.
fn child_at<C: OnBytes>(
    alloc: Global,
    class: &C,
    slots: &SlotPage,
    slot: u16,
    page: u64,
    query: &C::Query,
) -> Result<Option<u64>, PageError>
    requires class { C.valid class.now }
    requires query { C.valid_query class.now query.now }
    ensures some { (child : ℕ) (key : C.Key) → C.valid_key class.now key → child < 2 ^ 64 → item_at slots.now.items slot ≡ Some (inner_item (C.spelling class.now) child key)
        → IfOk result (λ below. below ≡ (if passes (C.inner_test class.now key query.now) then Some child else None)) }
    ensures cause { IfErr result (λ error. (error ≡ PageError.Memory) ⊎ ((error ≡ PageError.Broken page 1 0)
        × ((child : ℕ) (key : C.Key) → C.valid_key class.now key → item_at slots.now.items slot ≡ Some (inner_item (C.spelling class.now) child key) → ⊥))) }
{
    let Some(item) = slots.item(slot) else {
        return Err(no_item(page));
    };
    let Some((child, key)) = inner_parts(item) else {
        return Err(no_item(page));
    };
    let Ok(tested) = class.test_bytes(alloc, key, false, query) else {
        return Err(PageError::Memory);
    };
    let Some(test) = tested else {
        return Err(no_item(page));
    };
    if goes_on(test) {
        Ok(Some(child))
    } else {
        Ok(None)
    }
}

/// Adds the rows of a page of level 0 whose key doesn't rule the query out.
fn push_rows<C: OnBytes>(
    alloc: Global,
    class: &C,
    slots: &SlotPage,
    page: u64,
    query: &C::Query,
    rows: &mut Vec<RowRef>,
) -> Result<(), PageError>
    requires class { C.valid class.now }
    requires query { C.valid_query class.now query.now }
    ensures found { OnOk result ((entries : List (Option (Entry C.Key))) → All (λ slot. IfSome slot (λ e. C.valid_key class.now e.1 × FitsFields e.0)) entries
        → slots.now.items ≡ map (option_map (leaf_item (C.spelling class.now))) entries
        → rows.new.items ≡ rows.old.items ++ map (λ e. e.0) (filter (λ e. passes (C.leaf_test class.now e.1 query.now)) (filter_map (λ slot. slot) entries))) }
    ensures cause { IfErr result (λ error. (error ≡ PageError.Memory) ⊎ ((error ≡ PageError.Broken page 1 0)
        × ((entries : List (Option (Entry C.Key))) → All (λ slot. IfSome slot (λ e. C.valid_key class.now e.1 × FitsFields e.0)) entries
        → slots.now.items ≡ map (option_map (leaf_item (C.spelling class.now))) entries → ⊥))) }
{
    for slot in 0..slots.count() {
        if let Some(row) = row_at(alloc, class, slots, slot, page, query)? {
            let Ok(()) = rows.push(row) else {
                return Err(PageError::Memory);
            };
        }
    }
    Ok(())
}

/// Looks below a page, which is read already.
#[cycle(visit)]
pub fn visit_page<P: Pages, C: OnBytes>(
    alloc: Global,
    class: &C,
    pages: &mut P,
    slots: &SlotPage,
    page: u64,
    level: u8,
    query: &C::Query,
    so_far: &mut Found,
) -> Result<(), PageError>
    requires class { C.valid class.now }
    requires query { C.valid_query class.now query.now }
    ensures found { OnOk result (P.tells → (node : Node C.Key level) → IsRead C.GistClass class.now (P.map pages.old) (P.count pages.old) level node slots.now page
        → so_far.new.rows.items ≡ so_far.old.rows.items ++ map (λ e. e.0) (found (λ k. C.leaf_test class.now k query.now) (λ k. C.inner_test class.now k query.now) level node)) }
    ensures seen { OnOk result (P.tells → (node : Node C.Key level) → IsRead C.GistClass class.now (P.map pages.old) (P.count pages.old) level node slots.now page
        → (n : ℕ) → IsOutside n so_far.old.seen → IsOutside n (pages_of C.Key level node) → IsOutside n so_far.new.seen) }
    ensures visits { P.tells → (node : Node C.Key level) → IsRead C.GistClass class.now (P.map pages.old) (P.count pages.old) level node slots.now page
        → P.fetches pages.new + 1 ≤ P.fetches pages.old + visits (λ k. C.inner_test class.now k query.now) level node }
    ensures cause { IfErr result (HasCause (P.faults pages.old) (P.faults pages.new)
        (λ at expected found. P.tells → (node : Node C.Key level) → IsRead C.GistClass class.now (P.map pages.old) (P.count pages.old) level node slots.now page
        → AreFresh so_far.old.seen (pages_of C.Key level node) → ⊥) (λ _. ⊥) (Unit {0})) }
    ensures map { P.map pages.new ≡ P.map pages.old }
    ensures count { P.count pages.new ≡ P.count pages.old }
    ensures other { IsUnbroken result → P.heap_fetches pages.new ≡ P.heap_fetches pages.old }
    ensures quiet { StaysQuiet P.Pages pages.old pages.new }
{
    if level == 0 {
        push_rows(alloc, class, slots, page, query, &mut so_far.rows)?;
        return Ok(());
    }
    visit_items(alloc, class, pages, slots, page, level - 1, query, so_far)?;
    Ok(())
}

/// Looks below the items of a page, those whose key doesn't rule the query out; `below` is the level below it.
#[cycle(visit)]
fn visit_items<P: Pages, C: OnBytes>(
    alloc: Global,
    class: &C,
    pages: &mut P,
    slots: &SlotPage,
    page: u64,
    below: u8,
    query: &C::Query,
    so_far: &mut Found,
) -> Result<(), PageError>
    requires class { C.valid class.now }
    requires query { C.valid_query class.now query.now }
    ensures found { OnOk result (P.tells → (node : Node C.Key (suc below)) → IsRead C.GistClass class.now (P.map pages.old) (P.count pages.old) (suc below) node slots.now page
        → so_far.new.rows.items ≡ so_far.old.rows.items ++ map (λ e. e.0) (found (λ k. C.leaf_test class.now k query.now) (λ k. C.inner_test class.now k query.now) (suc below) node)) }
    ensures seen { OnOk result (P.tells → (node : Node C.Key (suc below)) → IsRead C.GistClass class.now (P.map pages.old) (P.count pages.old) (suc below) node slots.now page
        → (n : ℕ) → IsOutside n so_far.old.seen → IsOutside n (pages_of C.Key (suc below) node) → IsOutside n so_far.new.seen) }
    ensures visits { P.tells → (node : Node C.Key (suc below)) → IsRead C.GistClass class.now (P.map pages.old) (P.count pages.old) (suc below) node slots.now page
        → P.fetches pages.new + 1 ≤ P.fetches pages.old + visits (λ k. C.inner_test class.now k query.now) (suc below) node }
    ensures cause { IfErr result (HasCause (P.faults pages.old) (P.faults pages.new)
        (λ at expected found. P.tells → (node : Node C.Key (suc below)) → IsRead C.GistClass class.now (P.map pages.old) (P.count pages.old) (suc below) node slots.now page
        → AreFresh so_far.old.seen (pages_of C.Key (suc below) node) → ⊥) (λ _. ⊥) (Unit {0})) }
    ensures map { P.map pages.new ≡ P.map pages.old }
    ensures count { P.count pages.new ≡ P.count pages.old }
    ensures other { IsUnbroken result → P.heap_fetches pages.new ≡ P.heap_fetches pages.old }
    ensures quiet { StaysQuiet P.Pages pages.old pages.new }
{
    let Ok(fresh) = so_far.seen.add(page) else {
        return Err(PageError::Memory);
    };
    if !fresh {
        return Err(no_item(page));
    }
    for slot in 0..slots.count() {
        visit_slot(alloc, class, pages, slots, slot, page, below, query, so_far)?;
    }
    Ok(())
}

/// Looks below an item, where its key doesn't rule the query out.
#[cycle(visit)]
fn visit_slot<P: Pages, C: OnBytes>(
    alloc: Global,
    class: &C,
    pages: &mut P,
    slots: &SlotPage,
    slot: u16,
    page: u64,
    below: u8,
    query: &C::Query,
    so_far: &mut Found,
) -> Result<(), PageError>
    requires class { C.valid class.now }
    requires query { C.valid_query class.now query.now }
    ensures found { OnOk result (P.tells → (key : C.Key) (child : Node C.Key below) → IsBelow C.GistClass class.now (P.map pages.old) (P.count pages.old) below key child slots.now slot
        → so_far.new.rows.items ≡ so_far.old.rows.items
        ++ map (λ e. e.0) (if passes (C.inner_test class.now key query.now) then found (λ k. C.leaf_test class.now k query.now) (λ k. C.inner_test class.now k query.now) below child else [])) }
    ensures seen { OnOk result (P.tells → (key : C.Key) (child : Node C.Key below) → IsBelow C.GistClass class.now (P.map pages.old) (P.count pages.old) below key child slots.now slot
        → (n : ℕ) → IsOutside n so_far.old.seen → IsOutside n (pages_of C.Key below child) → IsOutside n so_far.new.seen) }
    ensures visits { P.tells → (key : C.Key) (child : Node C.Key below) → IsBelow C.GistClass class.now (P.map pages.old) (P.count pages.old) below key child slots.now slot
        → P.fetches pages.new ≤ P.fetches pages.old + (if passes (C.inner_test class.now key query.now) then visits (λ k. C.inner_test class.now k query.now) below child else 0) }
    ensures cause { IfErr result (HasCause (P.faults pages.old) (P.faults pages.new)
        (λ at expected found. P.tells → (key : C.Key) (child : Node C.Key below) → IsBelow C.GistClass class.now (P.map pages.old) (P.count pages.old) below key child slots.now slot
        → AreFresh so_far.old.seen (pages_of C.Key below child) → ⊥) (λ _. ⊥) (Unit {0})) }
    ensures map { P.map pages.new ≡ P.map pages.old }
    ensures count { P.count pages.new ≡ P.count pages.old }
    ensures other { IsUnbroken result → P.heap_fetches pages.new ≡ P.heap_fetches pages.old }
    ensures quiet { StaysQuiet P.Pages pages.old pages.new }
{
    let next = child_at(alloc, class, slots, slot, page, query)?;
    let Some(child) = next else {
        return Ok(());
    };
    let inner = fetch_level(pages, child, below)?;
    visit_page(alloc, class, pages, &inner, child, below, query, so_far)?;
    Ok(())
}
