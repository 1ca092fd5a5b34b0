//! Rows are inserted into a tree.

ghost use Rattle.std.specs.Prelude.{◌≡◌, ◌≢◌, ℕ, suc, ◌+◌, ◌<◌, ◌≤◌, List, ◌∷◌, All, IfOk, IfErr, OnOk, IsPermutation};
ghost use Rattle.gx_slot.specs.Slots.{Slots};
ghost use Rattle.gx_pages.specs.Footprints.{KeepsPages, StaysQuiet};
ghost use Rattle.gx_pages.specs.Frees.{IsFull};
ghost use Rattle.gx_pages.specs.Pages.{HasCause};
ghost use Rattle.gx_chain.specs.Chains.{IsSound as IsUnbroken};
ghost use Rattle.gx_gist_tree.specs.Trees.{AreKept, IsLeafKey, Node, items_above};
ghost use Rattle.gx_gist_tree.specs.OnPages.{HoldsBeside, Whole, entries_of, footprint, slots_of};
ghost use Rattle.gx_gist_tree.specs.Insertion.{HasValidKeys, IsInserted, IsReady};

use crate::change::Change;
use crate::choosing::{child_with_key, slot_for};
use crate::items::GIST;
use crate::putting::{grow_root, put_arranged};
use crate::reading::{fetch_level, root_level};
use crate::replacing::{add_row, replace_item};
use crate::tree::Tree;
use gx_chain::fetch_slots;
use gx_gist::{GistClass, OnBytes};
use gx_pages::{PageError, Pages, RowRef};
use gx_slot::SlotPage;
use std::alloc::Global;

/// Inserts a row on a page of level 0, which is read already.
fn insert_on_leaf<P: Pages, C: GistClass>(
    alloc: Global,
    class: &C,
    pages: &mut P,
    slots: &mut SlotPage,
    page: u64,
    row: RowRef,
    key: &C::Key,
) -> Result<Change<C::Key>, PageError>
    requires class { C.valid class.now }
    requires key { C.valid_key class.now key.now }
    requires nonzero { page ≢ 0 }
    requires below { page < P.count pages.old }
    ensures inserted { IfOk result (λ change. P.tells → (node : Node C.Key 0) (free : List ℕ) → IsReady P.Pages C.GistClass class.now pages.old 0 node slots.old page free
        → IsInserted P.Pages C.GistClass class.now pages.old pages.new row key.now 0 node free slots.new change) }
    ensures valid { IfOk result (HasValidKeys (C.valid_key class.now)) }
    ensures cause { IfErr result (HasCause (P.faults pages.old) (P.faults pages.new)
        (λ at expected found. P.tells → (node : Node C.Key 0) (free : List ℕ) → IsReady P.Pages C.GistClass class.now pages.old 0 node slots.old page free → ⊥) (IsFull P.tells (P.map pages.new) (P.count pages.new)) (Unit {0})) }
    ensures grows { P.count pages.old ≤ P.count pages.new }
    ensures few { P.count pages.new ≤ P.count pages.old + 1 }
    ensures other { P.heap_fetches pages.new ≡ P.heap_fetches pages.old }
    ensures quiet { StaysQuiet P.Pages pages.old pages.new }
{
    let arranged = add_row(alloc, class, slots, page, row, key)?;
    let change = put_arranged(pages, page, slots, arranged)?;
    Ok(change)
}

/// Inserts a row below a page, which is read already.
#[cycle(insert)]
pub fn insert_on_page<P: Pages, C: OnBytes>(
    alloc: Global,
    class: &C,
    pages: &mut P,
    slots: &mut SlotPage,
    page: u64,
    level: u8,
    row: RowRef,
    key: &C::Key,
) -> Result<Change<C::Key>, PageError>
    requires class { C.valid class.now }
    requires key { C.valid_key class.now key.now }
    requires nonzero { page ≢ 0 }
    requires below { page < P.count pages.old }
    ensures inserted { IfOk result (λ change. P.tells → (node : Node C.Key level) (free : List ℕ) → IsReady P.Pages C.GistClass class.now pages.old level node slots.old page free
        → IsInserted P.Pages C.GistClass class.now pages.old pages.new row key.now level node free slots.new change) }
    ensures valid { IfOk result (HasValidKeys (C.valid_key class.now)) }
    ensures cause { IfErr result (HasCause (P.faults pages.old) (P.faults pages.new)
        (λ at expected found. P.tells → (node : Node C.Key level) (free : List ℕ) → IsReady P.Pages C.GistClass class.now pages.old level node slots.old page free → ⊥) (IsFull P.tells (P.map pages.new) (P.count pages.new)) (Unit {0})) }
    ensures grows { P.count pages.old ≤ P.count pages.new }
    ensures few { P.count pages.new ≤ P.count pages.old + level + 1 }
    ensures other { IsUnbroken result → P.heap_fetches pages.new ≡ P.heap_fetches pages.old }
    ensures quiet { StaysQuiet P.Pages pages.old pages.new }
{
    if level == 0 {
        let leaf = insert_on_leaf(alloc, class, pages, slots, page, row, key)?;
        return Ok(leaf);
    }
    let change = insert_below(alloc, class, pages, slots, page, level - 1, row, key)?;
    Ok(change)
}

/// Inserts a row below the item of a page whose key grows least; `below` is the level below it.
#[cycle(insert)]
fn insert_below<P: Pages, C: OnBytes>(
    alloc: Global,
    class: &C,
    pages: &mut P,
    slots: &mut SlotPage,
    page: u64,
    below: u8,
    row: RowRef,
    key: &C::Key,
) -> Result<Change<C::Key>, PageError>
    requires class { C.valid class.now }
    requires key { C.valid_key class.now key.now }
    requires nonzero { page ≢ 0 }
    requires below { page < P.count pages.old }
    ensures inserted { IfOk result (λ change. P.tells → (node : Node C.Key (suc below)) (free : List ℕ) → IsReady P.Pages C.GistClass class.now pages.old (suc below) node slots.old page free
        → IsInserted P.Pages C.GistClass class.now pages.old pages.new row key.now (suc below) node free slots.new change) }
    ensures valid { IfOk result (HasValidKeys (C.valid_key class.now)) }
    ensures cause { IfErr result (HasCause (P.faults pages.old) (P.faults pages.new)
        (λ at expected found. P.tells → (node : Node C.Key (suc below)) (free : List ℕ) → IsReady P.Pages C.GistClass class.now pages.old (suc below) node slots.old page free → ⊥) (IsFull P.tells (P.map pages.new) (P.count pages.new)) (Unit {0})) }
    ensures grows { P.count pages.old ≤ P.count pages.new }
    ensures few { P.count pages.new ≤ P.count pages.old + below + 2 }
    ensures other { IsUnbroken result → P.heap_fetches pages.new ≡ P.heap_fetches pages.old }
    ensures quiet { StaysQuiet P.Pages pages.old pages.new }
{
    let slot = slot_for(alloc, class, slots, page, key)?;
    let (child, at) = child_with_key(alloc, class, slots, slot, page)?;
    let change = insert_on_child(alloc, class, pages, child, below, row, key)?;
    let arranged = replace_item(alloc, class, slots, page, slot, child, &at, key, &change)?;
    let outcome = put_arranged(pages, page, slots, arranged)?;
    Ok(outcome)
}

/// Inserts a row below a page of a level.
#[cycle(insert)]
fn insert_on_child<P: Pages, C: OnBytes>(
    alloc: Global,
    class: &C,
    pages: &mut P,
    child: u64,
    below: u8,
    row: RowRef,
    key: &C::Key,
) -> Result<Change<C::Key>, PageError>
    requires class { C.valid class.now }
    requires key { C.valid_key class.now key.now }
    ensures inserted { IfOk result (λ change. P.tells → (node : Node C.Key below) (free : List ℕ) → IsReady P.Pages C.GistClass class.now pages.old below node (slots_of (C.spelling class.now) below node) child free
        → (slots : Slots) × IsInserted P.Pages C.GistClass class.now pages.old pages.new row key.now below node free slots change) }
    ensures valid { IfOk result (HasValidKeys (C.valid_key class.now)) }
    ensures cause { IfErr result (HasCause (P.faults pages.old) (P.faults pages.new)
        (λ at expected found. P.tells → (node : Node C.Key below) (free : List ℕ) → IsReady P.Pages C.GistClass class.now pages.old below node (slots_of (C.spelling class.now) below node) child free → ⊥) (IsFull P.tells (P.map pages.new) (P.count pages.new)) (Unit {0})) }
    ensures grows { P.count pages.old ≤ P.count pages.new }
    ensures few { P.count pages.new ≤ P.count pages.old + below + 1 }
    ensures other { IsUnbroken result → P.heap_fetches pages.new ≡ P.heap_fetches pages.old }
    ensures quiet { StaysQuiet P.Pages pages.old pages.new }
{
    let mut inner = fetch_level(pages, child, below)?;
    let change = insert_on_page(alloc, class, pages, &mut inner, child, below, row, key)?;
    Ok(change)
}

impl<C: OnBytes> Tree<C> {
    /// Inserts a row with its leaf key. At most 64 pages more are there then, also after an error. Broken where the map doesn't
    /// hold the tree, or no free pages beside it.
    pub fn insert<P: Pages>(
        &mut self,
        alloc: Global,
        pages: &mut P,
        row: RowRef,
        key: &C::Key,
    ) -> Result<(), PageError>
        requires class { C.valid self.old.class }
        requires key { IsLeafKey (C.valid_value self.old.class) (C.leaf_of self.old.class) key.now }
        ensures inserted { OnOk result (P.tells → (before : Whole C.Key) (free : List ℕ) → HoldsBeside P.Pages C.GistClass self.old.class pages.old self.old.root before free
            → All (λ e. e.0.number ≢ row.number) (entries_of before)
            → (later : Whole C.Key) × (rest : List ℕ) × HoldsBeside P.Pages C.GistClass self.old.class pages.new self.old.root later rest
            × IsPermutation ((row, key.now) ∷ entries_of before) (entries_of later)
            × AreKept (C.union_of self.old.class) (items_above C.Key before.0 before.1) row key.now later.0 later.1
            × KeepsPages P.Pages pages.old pages.new (footprint before) free (footprint later) rest) }
        ensures same { self.new ≡ self.old }
        ensures grows { P.count pages.old ≤ P.count pages.new }
        ensures few { P.count pages.new ≤ P.count pages.old + 64 }
        ensures cause { IfErr result (HasCause (P.faults pages.old) (P.faults pages.new)
            (λ at expected found. P.tells → (before : Whole C.Key) (free : List ℕ) → ¬ HoldsBeside P.Pages C.GistClass self.old.class pages.old self.old.root before free)
            (IsFull P.tells (P.map pages.new) (P.count pages.new)) (Unit {0})) }
        ensures heap { P.tells → (before : Whole C.Key) (free : List ℕ) → HoldsBeside P.Pages C.GistClass self.old.class pages.old self.old.root before free
            → P.heap_fetches pages.new ≡ P.heap_fetches pages.old }
        ensures quiet { StaysQuiet P.Pages pages.old pages.new }
    {
        self.insert_row(alloc, pages, row, key)?;
        Ok(())
    }

    fn insert_row<P: Pages>(
        &self,
        alloc: Global,
        pages: &mut P,
        row: RowRef,
        key: &C::Key,
    ) -> Result<(), PageError>
        requires class { C.valid self.now.class }
        requires key { IsLeafKey (C.valid_value self.now.class) (C.leaf_of self.now.class) key.now }
        ensures inserted { OnOk result (P.tells → (before : Whole C.Key) (free : List ℕ) → HoldsBeside P.Pages C.GistClass self.now.class pages.old self.now.root before free
            → All (λ e. e.0.number ≢ row.number) (entries_of before)
            → (later : Whole C.Key) × (rest : List ℕ) × HoldsBeside P.Pages C.GistClass self.now.class pages.new self.now.root later rest
            × IsPermutation ((row, key.now) ∷ entries_of before) (entries_of later)
            × AreKept (C.union_of self.now.class) (items_above C.Key before.0 before.1) row key.now later.0 later.1
            × KeepsPages P.Pages pages.old pages.new (footprint before) free (footprint later) rest) }
        ensures grows { P.count pages.old ≤ P.count pages.new }
        ensures few { P.count pages.new ≤ P.count pages.old + 64 }
        ensures cause { IfErr result (HasCause (P.faults pages.old) (P.faults pages.new)
            (λ at expected found. P.tells → (before : Whole C.Key) (free : List ℕ) → ¬ HoldsBeside P.Pages C.GistClass self.now.class pages.old self.now.root before free)
            (IsFull P.tells (P.map pages.new) (P.count pages.new)) (Unit {0})) }
        ensures other { IsUnbroken result → P.heap_fetches pages.new ≡ P.heap_fetches pages.old }
        ensures quiet { StaysQuiet P.Pages pages.old pages.new }
    {
        let mut root = fetch_slots(pages, self.root, GIST)?;
        let level = root_level(&root, self.root)?;
        let change = insert_on_page(
            alloc,
            &self.class,
            pages,
            &mut root,
            self.root,
            level,
            row,
            key,
        )?;
        let Change::Split {
            left,
            page: other,
            right,
        } = change
        else {
            return Ok(());
        };
        grow_root(
            alloc,
            &self.class,
            pages,
            &root,
            self.root,
            level,
            &left,
            other,
            &right,
        )?;
        Ok(())
    }
}
