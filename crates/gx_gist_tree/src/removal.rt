//! Rows are taken out of a tree.

ghost use Rattle.std.specs.Prelude.{◌≡◌, ◌≢◌, ◌⊎◌, ℕ, suc, ◌^◌, ◌<◌, ◌≤◌, List, [], ◌∷◌, ◌++◌, map, filter, not, Option, Some, None, All, true, false, IsSome, IfOk, IfErr, IfSome, OnOk};
ghost use Rattle.std.specs.Option.{option_map};
ghost use Rattle.gx_pages.specs.declared.row.RowRef.{RowRef};
ghost use Rattle.gx_pages.specs.Frees.{IsApart};
ghost use Rattle.gx_pages.specs.Footprints.{ChangesOnly, IsOutside, KeepsPages, StaysQuiet};
ghost use Rattle.gx_pages.specs.Pages.{HasCause};
ghost use Rattle.gx_slot.specs.Slots.{item_at};
ghost use Rattle.gx_chain.specs.Chains.{IsSound as IsUnbroken};
ghost use Rattle.gx_gist_tree.specs.Trees.{Entry, Node, items_above, kept_slot, pages_of, stripped};
ghost use Rattle.gx_gist_tree.specs.OnPages.{AreFresh, FitsFields, Holds, HoldsBeside, IsBelow, IsRead, Stands, Whole, entries_of, footprint, is_in, leaf_item, inner_item};

use crate::items::{GIST, inner_parts, leaf_parts};
use crate::reading::{fetch_level, no_item, root_level};
use crate::seen::Seen;
use crate::tree::Tree;
use gx_chain::fetch_slots;
use gx_gist::{GistClass, OnBytes};
use gx_pages::{Bitmap, PageError, Pages};
use gx_slot::SlotPage;
use std::alloc::Global;

/// Tells whether the slot of a page of level 0 has one of these rows.
fn is_gone(slots: &SlotPage, slot: u16, page: u64, rows: &Bitmap) -> Result<bool, PageError>
    ensures none { item_at slots.now.items slot ≡ None → IfOk result (λ gone. gone ≡ false) }
    ensures some { (row : RowRef) (key : List ℕ) → FitsFields row → item_at slots.now.items slot ≡ Some (leaf_item (λ bytes. bytes) (row, key)) → IfOk result (λ gone. gone ≡ is_in rows.now row.number) }
    ensures there { IfOk result (λ gone. gone ≡ true → IsSome (item_at slots.now.items slot)) }
    ensures cause { IfErr result (λ error. (error ≡ PageError.Broken page 1 0)
        × ((item_at slots.now.items slot ≡ None → ⊥) × ((row : RowRef) (key : List ℕ) → item_at slots.now.items slot ≡ Some (leaf_item (λ bytes. bytes) (row, key)) → ⊥))) }
{
    let Some(item) = slots.item(slot) else {
        return Ok(false);
    };
    let Some((row, _key)) = leaf_parts(item) else {
        return Err(no_item(page));
    };
    Ok(rows.has(row.number))
}

/// Empties the slots of these rows on a page of level 0. Tells whether there were any.
fn empty_slots(slots: &mut SlotPage, page: u64, rows: &Bitmap) -> Result<bool, PageError>
    ensures emptied { OnOk result ((entries : List (Option (Entry (List ℕ)))) → All (λ slot. IfSome slot (λ e. FitsFields e.0)) entries
        → slots.old.items ≡ map (option_map (leaf_item (λ bytes. bytes))) entries
        → slots.new.items ≡ map (option_map (leaf_item (λ bytes. bytes))) (map (kept_slot (λ e. is_in rows.now e.0.number)) entries)) }
    ensures rest { slots.new ≡ record slots.old { items = slots.new.items } }
    ensures same { IfOk result (λ changed. changed ≡ false → slots.new ≡ slots.old) }
    ensures cause { IfErr result (λ error. (error ≡ PageError.Broken page 1 0)
        × ((entries : List (Option (Entry (List ℕ)))) → All (λ slot. IfSome slot (λ e. FitsFields e.0)) entries → slots.old.items ≡ map (option_map (leaf_item (λ bytes. bytes))) entries → ⊥)) }
{
    let mut changed = false;
    for slot in 0..slots.count() {
        let gone = is_gone(slots, slot, page, rows)?;
        if gone {
            slots.remove(slot);
            changed = true;
        }
    }
    Ok(changed)
}

/// The page below a slot's item.
pub fn child_in(slots: &SlotPage, slot: u16, page: u64) -> Result<u64, PageError>
    ensures some { (child : ℕ) (key : List ℕ) → child < 2 ^ 64 → item_at slots.now.items slot ≡ Some (inner_item (λ bytes. bytes) child key) → IfOk result (λ below. below ≡ child) }
    ensures cause { IfErr result (λ error. (error ≡ PageError.Broken page 1 0)
        × ((child : ℕ) (key : List ℕ) → item_at slots.now.items slot ≡ Some (inner_item (λ bytes. bytes) child key) → ⊥)) }
{
    let Some(item) = slots.item(slot) else {
        return Err(no_item(page));
    };
    let Some((child, _key)) = inner_parts(item) else {
        return Err(no_item(page));
    };
    Ok(child)
}

/// Takes rows out of a page of level 0.
fn strip_leaf<P: Pages, C: GistClass>(
    class: &C,
    pages: &mut P,
    slots: &mut SlotPage,
    page: u64,
    rows: &Bitmap,
) -> Result<(), PageError>
    requires nonzero { page ≢ 0 }
    requires below { page < P.count pages.old }
    ensures stripped { OnOk result (P.tells → (node : Node C.Key 0) → IsRead C.GistClass class.now (P.map pages.old) (P.count pages.old) 0 node slots.old page
        → Stands (P.map pages.new) (C.spelling class.now) 0 (stripped (λ e. is_in rows.now e.0.number) 0 node) × ChangesOnly (P.map pages.old) (P.map pages.new) (pages_of C.Key 0 node)) }
    ensures zero { OnOk result (P.tells → P.map pages.new 0 ≡ P.map pages.old 0) }
    ensures cause { IfErr result (HasCause (P.faults pages.old) (P.faults pages.new)
        (λ at expected found. P.tells → (node : Node C.Key 0) → IsRead C.GistClass class.now (P.map pages.old) (P.count pages.old) 0 node slots.old page → ⊥) (λ _. ⊥) (Unit {0})) }
    ensures count { P.count pages.new ≡ P.count pages.old }
    ensures other { P.heap_fetches pages.new ≡ P.heap_fetches pages.old }
    ensures quiet { StaysQuiet P.Pages pages.old pages.new }
{
    let changed = empty_slots(slots, page, rows)?;
    if !changed {
        return Ok(());
    }
    pages.put(page, slots.page())?;
    Ok(())
}

/// Takes rows out below a page, which is read already.
#[cycle(strip)]
pub fn strip_page<P: Pages, C: GistClass>(
    class: &C,
    pages: &mut P,
    slots: &mut SlotPage,
    page: u64,
    level: u8,
    rows: &Bitmap,
    seen: &mut Seen,
) -> Result<(), PageError>
    requires nonzero { page ≢ 0 }
    requires below { page < P.count pages.old }
    ensures stripped { OnOk result (P.tells → (node : Node C.Key level) → IsRead C.GistClass class.now (P.map pages.old) (P.count pages.old) level node slots.old page → IsApart (pages_of C.Key level node)
        → Stands (P.map pages.new) (C.spelling class.now) level (stripped (λ e. is_in rows.now e.0.number) level node) × ChangesOnly (P.map pages.old) (P.map pages.new) (pages_of C.Key level node)) }
    ensures seen { OnOk result (P.tells → (node : Node C.Key level) → IsRead C.GistClass class.now (P.map pages.old) (P.count pages.old) level node slots.old page → IsApart (pages_of C.Key level node)
        → (n : ℕ) → IsOutside n seen.old → IsOutside n (pages_of C.Key level node) → IsOutside n seen.new) }
    ensures zero { OnOk result (P.tells → P.map pages.new 0 ≡ P.map pages.old 0) }
    ensures cause { IfErr result (HasCause (P.faults pages.old) (P.faults pages.new)
        (λ at expected found. P.tells → (node : Node C.Key level) → IsRead C.GistClass class.now (P.map pages.old) (P.count pages.old) level node slots.old page → AreFresh seen.old (pages_of C.Key level node) → ⊥) (λ _. ⊥) (Unit {0})) }
    ensures count { P.count pages.new ≡ P.count pages.old }
    ensures other { IsUnbroken result → P.heap_fetches pages.new ≡ P.heap_fetches pages.old }
    ensures quiet { StaysQuiet P.Pages pages.old pages.new }
{
    if level == 0 {
        strip_leaf(class, pages, slots, page, rows)?;
        return Ok(());
    }
    strip_items(class, pages, slots, page, level - 1, rows, seen)?;
    Ok(())
}

/// Takes rows out below the items of a page; `below` is the level below it.
#[cycle(strip)]
fn strip_items<P: Pages, C: GistClass>(
    class: &C,
    pages: &mut P,
    slots: &SlotPage,
    page: u64,
    below: u8,
    rows: &Bitmap,
    seen: &mut Seen,
) -> Result<(), PageError>
    ensures stripped { OnOk result (P.tells → (node : Node C.Key (suc below)) → IsRead C.GistClass class.now (P.map pages.old) (P.count pages.old) (suc below) node slots.now page → IsApart (pages_of C.Key (suc below) node)
        → Stands (P.map pages.new) (C.spelling class.now) (suc below) (stripped (λ e. is_in rows.now e.0.number) (suc below) node) × ChangesOnly (P.map pages.old) (P.map pages.new) (pages_of C.Key (suc below) node)) }
    ensures seen { OnOk result (P.tells → (node : Node C.Key (suc below)) → IsRead C.GistClass class.now (P.map pages.old) (P.count pages.old) (suc below) node slots.now page → IsApart (pages_of C.Key (suc below) node)
        → (n : ℕ) → IsOutside n seen.old → IsOutside n (pages_of C.Key (suc below) node) → IsOutside n seen.new) }
    ensures zero { OnOk result (P.tells → P.map pages.new 0 ≡ P.map pages.old 0) }
    ensures cause { IfErr result (HasCause (P.faults pages.old) (P.faults pages.new)
        (λ at expected found. P.tells → (node : Node C.Key (suc below)) → IsRead C.GistClass class.now (P.map pages.old) (P.count pages.old) (suc below) node slots.now page → AreFresh seen.old (pages_of C.Key (suc below) node) → ⊥) (λ _. ⊥) (Unit {0})) }
    ensures count { P.count pages.new ≡ P.count pages.old }
    ensures other { IsUnbroken result → P.heap_fetches pages.new ≡ P.heap_fetches pages.old }
    ensures quiet { StaysQuiet P.Pages pages.old pages.new }
{
    let Ok(fresh) = seen.add(page) else {
        return Err(PageError::Memory);
    };
    if !fresh {
        return Err(no_item(page));
    }
    for slot in 0..slots.count() {
        strip_slot(class, pages, slots, slot, page, below, rows, seen)?;
    }
    Ok(())
}

/// Takes rows out below an item.
#[cycle(strip)]
fn strip_slot<P: Pages, C: GistClass>(
    class: &C,
    pages: &mut P,
    slots: &SlotPage,
    slot: u16,
    page: u64,
    below: u8,
    rows: &Bitmap,
    seen: &mut Seen,
) -> Result<(), PageError>
    ensures stripped { OnOk result (P.tells → (key : C.Key) (child : Node C.Key below) → IsBelow C.GistClass class.now (P.map pages.old) (P.count pages.old) below key child slots.now slot → IsApart (pages_of C.Key below child)
        → Stands (P.map pages.new) (C.spelling class.now) below (stripped (λ e. is_in rows.now e.0.number) below child) × ChangesOnly (P.map pages.old) (P.map pages.new) (pages_of C.Key below child)) }
    ensures seen { OnOk result (P.tells → (key : C.Key) (child : Node C.Key below) → IsBelow C.GistClass class.now (P.map pages.old) (P.count pages.old) below key child slots.now slot → IsApart (pages_of C.Key below child)
        → (n : ℕ) → IsOutside n seen.old → IsOutside n (pages_of C.Key below child) → IsOutside n seen.new) }
    ensures zero { OnOk result (P.tells → P.map pages.new 0 ≡ P.map pages.old 0) }
    ensures cause { IfErr result (HasCause (P.faults pages.old) (P.faults pages.new)
        (λ at expected found. P.tells → (key : C.Key) (child : Node C.Key below) → IsBelow C.GistClass class.now (P.map pages.old) (P.count pages.old) below key child slots.now slot → AreFresh seen.old (pages_of C.Key below child) → ⊥) (λ _. ⊥) (Unit {0})) }
    ensures count { P.count pages.new ≡ P.count pages.old }
    ensures other { IsUnbroken result → P.heap_fetches pages.new ≡ P.heap_fetches pages.old }
    ensures quiet { StaysQuiet P.Pages pages.old pages.new }
{
    let child = child_in(slots, slot, page)?;
    let mut inner = fetch_level(pages, child, below)?;
    strip_page(class, pages, &mut inner, child, below, rows, seen)?;
    Ok(())
}

impl<C: OnBytes> Tree<C> {
    /// Takes the rows with the numbers of these out. No key above level 0 changes, and no page is given back. Broken where the map
    /// doesn't hold the tree.
    pub fn remove_rows<P: Pages>(
        &mut self,
        alloc: Global,
        pages: &mut P,
        rows: &Bitmap,
    ) -> Result<(), PageError>
        requires class { C.valid self.old.class }
        ensures removed { OnOk result (P.tells → (before : Whole C.Key) (free : List ℕ) → HoldsBeside P.Pages C.GistClass self.old.class pages.old self.old.root before free
            → (later : Whole C.Key) × HoldsBeside P.Pages C.GistClass self.old.class pages.new self.old.root later free
            × (entries_of later ≡ filter (λ e. not (is_in rows.now e.0.number)) (entries_of before))
            × (items_above C.Key later.0 later.1 ≡ items_above C.Key before.0 before.1) × (footprint later ≡ footprint before)
            × KeepsPages P.Pages pages.old pages.new (footprint before) free (footprint before) free) }
        ensures same { self.new ≡ self.old }
        ensures count { P.count pages.new ≡ P.count pages.old }
        ensures cause { IfErr result (HasCause (P.faults pages.old) (P.faults pages.new)
            (λ at expected found. P.tells → (before : Whole C.Key) → ¬ Holds C.GistClass self.old.class (P.map pages.old) (P.count pages.old) self.old.root before) (λ _. ⊥) (Unit {0})) }
        ensures heap { P.tells → (before : Whole C.Key) → Holds C.GistClass self.old.class (P.map pages.old) (P.count pages.old) self.old.root before
            → P.heap_fetches pages.new ≡ P.heap_fetches pages.old }
        ensures quiet { StaysQuiet P.Pages pages.old pages.new }
    {
        self.strip(alloc, pages, rows)?;
        Ok(())
    }

    fn strip<P: Pages>(&self, alloc: Global, pages: &mut P, rows: &Bitmap) -> Result<(), PageError>
        requires class { C.valid self.now.class }
        ensures removed { OnOk result (P.tells → (before : Whole C.Key) (free : List ℕ) → HoldsBeside P.Pages C.GistClass self.now.class pages.old self.now.root before free
            → (later : Whole C.Key) × HoldsBeside P.Pages C.GistClass self.now.class pages.new self.now.root later free
            × (entries_of later ≡ filter (λ e. not (is_in rows.now e.0.number)) (entries_of before))
            × (items_above C.Key later.0 later.1 ≡ items_above C.Key before.0 before.1) × (footprint later ≡ footprint before)
            × KeepsPages P.Pages pages.old pages.new (footprint before) free (footprint before) free) }
        ensures count { P.count pages.new ≡ P.count pages.old }
        ensures cause { IfErr result (HasCause (P.faults pages.old) (P.faults pages.new)
            (λ at expected found. P.tells → (before : Whole C.Key) → ¬ Holds C.GistClass self.now.class (P.map pages.old) (P.count pages.old) self.now.root before) (λ _. ⊥) (Unit {0})) }
        ensures other { IsUnbroken result → P.heap_fetches pages.new ≡ P.heap_fetches pages.old }
        ensures quiet { StaysQuiet P.Pages pages.old pages.new }
    {
        let mut root = fetch_slots(pages, self.root, GIST)?;
        let level = root_level(&root, self.root)?;
        let mut seen = Seen::new(alloc);
        strip_page(
            &self.class,
            pages,
            &mut root,
            self.root,
            level,
            rows,
            &mut seen,
        )?;
        Ok(())
    }
}
