//! A GIN index.

ghost use Rattle.std.specs.Prelude.{◌≡◌, ◌≢◌, ℕ, ◌+◌, ◌*◌, ◌≤◌, List, [], ◌∷◌, ◌++◌, filter, length, map, not, IfOk, IfErr, OnOk};
ghost use Rattle.gx_chain.specs.Chains.{IsSound, ListsNone};
ghost use Rattle.gx_pages.specs.declared.row.RowRef.{RowRef};
ghost use Rattle.gx_pages.specs.Footprints.{KeepsPages, StaysQuiet};
ghost use Rattle.gx_pages.specs.Frees.{IsFreeList, IsFull};
ghost use Rattle.gx_pages.specs.Pages.{HasCause};
ghost use Rattle.gx_pages.specs.Rows.{AreBelow, IsRising};
ghost use Rattle.gx_gin.specs.declared.wanted.Mode.TheVariants.{All};
ghost use Rattle.gx_gin_scan.specs.Gins.{HoldsGin, HoldsLists, HoldsNoGin, HoldsNoLists};
ghost use Rattle.gx_gin_scan.specs.Lists.{IsIndexOf, Lists, found, keys_of};
ghost use Rattle.gx_gin_scan.specs.Searches.{has, keys_read, pages_read};

use crate::dropping::drop_postings;
use crate::inserting::put_keys;
use crate::looking::rows_looked_at;
use crate::removing::strip_entries;
use crate::searching::{arrange, pick, rows_of_items};
use gx_gin::{GinClass, Wanted};
use gx_gin_entry::EntryTree;
use gx_pages::{Bitmap, PageError, Pages, RowRef};
use std::alloc::Global;

/// An index of an operator class: the root page of its entry tree, whose number stays the same.
#[derive(Drop)]
pub struct Gin<C: GinClass> {
    pub class: C,
    pub root: u64,
}

impl<C: GinClass> Gin<C> {
    /// An index without rows, on a page that it takes.
    pub fn create<P: Pages>(class: C, pages: &mut P) -> Result<Gin<C>, PageError>
        ensures class { IfOk result (λ made. made.class ≡ class) }
        ensures made { IfOk result (λ made. P.tells → (free : List ℕ) → IsFreeList (P.map pages.old) (P.count pages.old) free
            → (rest : List ℕ) × HoldsGin P.Pages pages.new made.root [] (made.root ∷ []) rest × KeepsPages P.Pages pages.old pages.new [] free (made.root ∷ []) rest
            × IsIndexOf (C.items_of class) [] []) }
        ensures grows { P.count pages.old ≤ P.count pages.new }
        ensures by_one { P.count pages.new ≤ P.count pages.old + 1 }
        ensures cause { IfErr result (HasCause (P.faults pages.old) (P.faults pages.new)
            (λ at expected found. P.tells → ListsNone P.Pages pages.old) (IsFull P.tells (P.map pages.new) (P.count pages.new)) (Unit {0})) }
        ensures heap { P.heap_fetches pages.new ≡ P.heap_fetches pages.old }
        ensures quiet { StaysQuiet P.Pages pages.old pages.new }
    {
        let entries = EntryTree::create(pages)?;
        let root = entries.root();
        Ok(Gin { class, root })
    }

    /// The index of this class below this root page.
    pub fn at(class: C, root: u64) -> Gin<C>
        ensures class { result.class ≡ class }
        ensures root { result.root ≡ root }
    {
        Gin { class, root }
    }

    /// Adds a row with its value; the row's number is above all that stand. At most 61 pages more are taken for each key of the value.
    pub fn insert<P: Pages>(
        &mut self,
        alloc: Global,
        pages: &mut P,
        row: RowRef,
        value: &C::Value,
    ) -> Result<(), PageError>
        requires class { C.valid self.old.class }
        requires value { C.valid_value self.old.class value.now }
        ensures inserted { OnOk result (P.tells → (lists : Lists) (feet free : List ℕ) → HoldsGin P.Pages pages.old self.old.root lists feet free
            → (all : List (RowRef × C.Value)) → IsIndexOf (C.items_of self.old.class) lists all → AreBelow (map (λ r. r.0) all) row.number
            → (after : Lists) × (later : List ℕ) × (rest : List ℕ) × HoldsGin P.Pages pages.new self.old.root after later rest × KeepsPages P.Pages pages.old pages.new feet free later rest
            × IsIndexOf (C.items_of self.old.class) after (all ++ (row, value.now) ∷ [])) }
        ensures same { self.new ≡ self.old }
        ensures grows { P.count pages.old ≤ P.count pages.new }
        ensures by { P.count pages.new ≤ P.count pages.old + 61 * length (keys_of (C.items_of self.old.class value.now)) }
        ensures cause { IfErr result (HasCause (P.faults pages.old) (P.faults pages.new)
            (λ at expected found. P.tells → (lists : Lists) (feet free : List ℕ) → HoldsGin P.Pages pages.old self.old.root lists feet free
            → (all : List (RowRef × C.Value)) → IsIndexOf (C.items_of self.old.class) lists all → AreBelow (map (λ r. r.0) all) row.number → ⊥)
            (IsFull P.tells (P.map pages.new) (P.count pages.new)) (Unit {0})) }
        ensures heap { IsSound result → P.heap_fetches pages.new ≡ P.heap_fetches pages.old }
        ensures quiet { StaysQuiet P.Pages pages.old pages.new }
    {
        let Ok(items) = self.class.items(alloc, value) else {
            return Err(PageError::Memory);
        };
        put_keys(alloc, pages, self.root, &items, row)
    }

    /// The rows in reach of a query that its flags don't rule out. A page a level of the entry tree is fetched for each wanted item,
    /// and each page of its posting tree; in mode All each page of the index is fetched once, beside them.
    pub fn search<P: Pages>(
        &self,
        alloc: Global,
        pages: &mut P,
        query: &C::Query,
    ) -> Result<Bitmap, PageError>
        requires class { C.valid self.now.class }
        requires query { C.valid_query self.now.class query.now }
        ensures found { IfOk result (λ rows. P.tells → (lists : Lists) (feet : List ℕ) → HoldsLists (P.map pages.old) (P.count pages.old) self.now.root lists feet
            → (all : List (RowRef × C.Value)) → IsIndexOf (C.items_of self.now.class) lists all
            → rows ≡ found (C.items_of self.now.class) (C.mode_of self.now.class query.now) (C.wanted_of self.now.class query.now) (C.passes_of self.now.class query.now) all) }
        ensures rising { IfOk result (λ rows. IsRising rows) }
        ensures fetches { OnOk result (C.mode_of self.now.class query.now ≢ All → P.tells → (lists : Lists) (feet : List ℕ) (held : HoldsLists (P.map pages.old) (P.count pages.old) self.now.root lists feet)
            → P.fetches pages.new ≤ P.fetches pages.old
            + pages_read (P.map pages.old) (P.count pages.old) self.now.root lists feet held (keys_read (C.mode_of self.now.class query.now) (C.wanted_of self.now.class query.now))) }
        ensures cause { IfErr result (HasCause (P.faults pages.old) (P.faults pages.new)
            (λ at expected found. P.tells → HoldsNoLists (P.map pages.old) (P.count pages.old) self.now.root) (λ _. ⊥) (Unit {0})) }
        ensures map { P.map pages.new ≡ P.map pages.old }
        ensures count { P.count pages.new ≡ P.count pages.old }
        ensures heap { IsSound result → P.heap_fetches pages.new ≡ P.heap_fetches pages.old }
        ensures quiet { StaysQuiet P.Pages pages.old pages.new }
    {
        let Ok(wanted) = self.class.wanted(alloc, query) else {
            return Err(PageError::Memory);
        };
        let Wanted { items, mode } = wanted;
        let lists = rows_of_items(alloc, pages, self.root, &items)?;
        let looked = rows_looked_at(alloc, pages, self.root, mode, lists.as_slice())?;
        let rows = arrange(alloc, looked)?;
        pick(alloc, &self.class, query, lists.as_slice(), &rows)
    }

    /// Takes out the rows with these numbers. A key without rows goes, with the pages of its rows. No page is taken.
    pub fn remove_rows<P: Pages>(
        &mut self,
        alloc: Global,
        pages: &mut P,
        gone: &Bitmap,
    ) -> Result<(), PageError>
        ensures removed { OnOk result (P.tells → (lists : Lists) (feet free : List ℕ) → HoldsGin P.Pages pages.old self.old.root lists feet free
            → (all : List (RowRef × C.Value)) → IsIndexOf (C.items_of self.old.class) lists all
            → (after : Lists) × (later : List ℕ) × (rest : List ℕ) × HoldsGin P.Pages pages.new self.old.root after later rest × KeepsPages P.Pages pages.old pages.new feet free later rest
            × IsIndexOf (C.items_of self.old.class) after (filter (λ row. not (has gone.now row.0.number)) all)) }
        ensures same { self.new ≡ self.old }
        ensures count { P.count pages.new ≡ P.count pages.old }
        ensures cause { IfErr result (HasCause (P.faults pages.old) (P.faults pages.new)
            (λ at expected found. P.tells → HoldsNoGin P.Pages pages.old self.old.root) (λ _. ⊥) (Unit {0})) }
        ensures heap { IsSound result → P.heap_fetches pages.new ≡ P.heap_fetches pages.old }
        ensures quiet { StaysQuiet P.Pages pages.old pages.new }
    {
        let entries = EntryTree::at(self.root).entries(alloc, pages)?;
        strip_entries(alloc, pages, self.root, entries.as_slice(), gone)
    }

    /// The root page.
    pub fn root(&self) -> u64
        ensures { result ≡ self.now.root }
    {
        self.root
    }

    /// Gives every page back. There is no index then.
    pub fn drop_all<P: Pages>(self, alloc: Global, pages: &mut P) -> Result<(), PageError>
        ensures dropped { OnOk result (P.tells → (lists : Lists) (feet free : List ℕ) → HoldsGin P.Pages pages.old self.root lists feet free
            → (rest : List ℕ) × KeepsPages P.Pages pages.old pages.new feet free [] rest) }
        ensures count { P.count pages.new ≡ P.count pages.old }
        ensures cause { IfErr result (HasCause (P.faults pages.old) (P.faults pages.new)
            (λ at expected found. P.tells → HoldsNoGin P.Pages pages.old self.root) (λ _. ⊥) (Unit {0})) }
        ensures heap { IsSound result → P.heap_fetches pages.new ≡ P.heap_fetches pages.old }
        ensures quiet { StaysQuiet P.Pages pages.old pages.new }
    {
        drop_index(alloc, pages, self.root)
    }
}

/// Gives every page of the index below this root page back.
fn drop_index<P: Pages>(alloc: Global, pages: &mut P, root: u64) -> Result<(), PageError>
    ensures dropped { OnOk result (P.tells → (lists : Lists) (feet free : List ℕ) → HoldsGin P.Pages pages.old root lists feet free
        → (rest : List ℕ) × KeepsPages P.Pages pages.old pages.new feet free [] rest) }
    ensures count { P.count pages.new ≡ P.count pages.old }
    ensures cause { IfErr result (HasCause (P.faults pages.old) (P.faults pages.new)
        (λ at expected found. P.tells → HoldsNoGin P.Pages pages.old root) (λ _. ⊥) (Unit {0})) }
    ensures heap { IsSound result → P.heap_fetches pages.new ≡ P.heap_fetches pages.old }
    ensures quiet { StaysQuiet P.Pages pages.old pages.new }
{
    let tree = EntryTree::at(root);
    let entries = tree.entries(alloc, pages)?;
    drop_postings(alloc, pages, root, entries.as_slice())?;
    tree.drop_all(alloc, pages)
}
