//! A posting tree.

ghost use Rattle.std.specs.Prelude.{◌≡◌, ◌↔◌, true, ℕ, ◌+◌, ◌*◌, ◌≤◌, List, [], ◌∷◌, ◌++◌, length, IfOk, IfErr, OnOk};
ghost use Rattle.gx_pages.specs.declared.row.RowRef.{RowRef};
ghost use Rattle.gx_pages.specs.Footprints.{KeepsPages, StaysQuiet};
ghost use Rattle.gx_pages.specs.Frees.{IsFreeList, IsFull};
ghost use Rattle.gx_pages.specs.Pages.{HasCause};
ghost use Rattle.gx_pages.specs.Rows.{AreBelow, IsRising};
ghost use Rattle.gx_posting.specs.Postings.{entries_bytes};
ghost use Rattle.gx_chain.specs.Chains.{IsSound, ListsNone};
ghost use Rattle.gx_posting_tree.specs.PostingTrees.{HoldsList, HoldsRows, HoldsNoList, HoldsNoRows, without};

use crate::appending::Appending;
use crate::filling::fill_page;
use crate::reading::{KIND, leaf_rows, push_rows};
use crate::removing::{leaf_list, strip_pages};
use gx_pages::{Bitmap, PageError, Pages, RowRef};
use gx_tree::{change_tree, create_leaf, drop_tree, fetch_top, survey};
use std::alloc::Global;

/// A posting tree: its root page, whose number stays the same. Pages are of kind 6. At level 0 each item is a posting list of at
/// most 512 bytes; above, an item is a u64 number, which is at most every row number below it and above every one before it, and
/// the u64 number of a page of the level below.
#[derive(Clone, Copy, Debug, Drop, PartialEq, Eq)]
pub struct PostingTree {
    page: u64,
}

impl PostingTree {
    /// A posting tree of these rows. Where their list would have at most 1,024 bytes, it takes one page.
    pub fn create<P: Pages>(
        alloc: Global,
        pages: &mut P,
        rows: &Bitmap,
    ) -> Result<PostingTree, PageError>
        ensures made { IfOk result (λ made. P.tells → (free : List ℕ) → IsFreeList (P.map pages.old) (P.count pages.old) free
            → (feet : List ℕ) × (rest : List ℕ) × HoldsRows P.Pages pages.new made.page rows.now feet rest × KeepsPages P.Pages pages.old pages.new [] free feet rest) }
        ensures grows { P.count pages.old ≤ P.count pages.new }
        ensures by_one { length (entries_bytes 0 rows.now) ≤ 1024 → P.count pages.new ≤ P.count pages.old + 1 }
        ensures by { P.count pages.new ≤ P.count pages.old + (60 * length rows.now + 1) }
        ensures cause { IfErr result (HasCause (P.faults pages.old) (P.faults pages.new)
            (λ at expected found. P.tells → ListsNone P.Pages pages.old) (IsFull P.tells (P.map pages.new) (P.count pages.new)) (Unit {0})) }
        ensures heap { IsSound result → P.heap_fetches pages.new ≡ P.heap_fetches pages.old }
        ensures quiet { StaysQuiet P.Pages pages.old pages.new }
    {
        let filled = fill_page(alloc, rows.as_slice())?;
        let page = create_leaf(pages, &filled.slots)?;
        let mut made = PostingTree { page };
        made.insert_all(alloc, pages, &rows.as_slice()[filled.count..])?;
        Ok(made)
    }

    /// Adds rows, whose numbers rise above all that stand.
    fn insert_all<P: Pages>(
        &mut self,
        alloc: Global,
        pages: &mut P,
        rows: &[RowRef],
    ) -> Result<(), PageError>
        ensures inserted { OnOk result (P.tells → (list : List RowRef) (feet free : List ℕ) → HoldsRows P.Pages pages.old self.old.page list feet free → IsRising (list ++ rows.now)
            → (later : List ℕ) × (rest : List ℕ) × HoldsRows P.Pages pages.new self.old.page (list ++ rows.now) later rest × KeepsPages P.Pages pages.old pages.new feet free later rest) }
        ensures same { self.new ≡ self.old }
        ensures grows { P.count pages.old ≤ P.count pages.new }
        ensures by { P.count pages.new ≤ P.count pages.old + 60 * length rows.now }
        ensures cause { IfErr result (HasCause (P.faults pages.old) (P.faults pages.new)
            (λ at expected found. P.tells → (list : List RowRef) (feet free : List ℕ) → HoldsRows P.Pages pages.old self.old.page list feet free → IsRising (list ++ rows.now) → ⊥)
            (IsFull P.tells (P.map pages.new) (P.count pages.new)) (Unit {0})) }
        ensures heap { IsSound result → P.heap_fetches pages.new ≡ P.heap_fetches pages.old }
        ensures quiet { StaysQuiet P.Pages pages.old pages.new }
    {
        for row in rows {
            self.insert(alloc, pages, *row)?;
        }
        Ok(())
    }

    /// The posting tree below this root page.
    pub fn at(root: u64) -> PostingTree
        ensures { result.page ≡ root }
    {
        PostingTree { page: root }
    }

    /// The root page.
    pub fn root(&self) -> u64
        ensures { result ≡ self.now.page }
    {
        self.page
    }

    /// All rows. Each page is fetched once.
    pub fn rows<P: Pages>(&self, alloc: Global, pages: &mut P) -> Result<Bitmap, PageError>
        ensures rows { IfOk result (λ found. P.tells → (rows : List RowRef) (feet : List ℕ) → HoldsList (P.map pages.old) (P.count pages.old) self.now.page rows feet → found ≡ rows) }
        ensures fetches { OnOk result (P.tells → (rows : List RowRef) (feet : List ℕ) → HoldsList (P.map pages.old) (P.count pages.old) self.now.page rows feet
            → P.fetches pages.new ≤ P.fetches pages.old + length feet) }
        ensures cause { IfErr result (HasCause (P.faults pages.old) (P.faults pages.new)
            (λ at expected found. P.tells → HoldsNoList (P.map pages.old) (P.count pages.old) self.now.page) (λ _. ⊥) (Unit {0})) }
        ensures map { P.map pages.new ≡ P.map pages.old }
        ensures count { P.count pages.new ≡ P.count pages.old }
        ensures heap { IsSound result → P.heap_fetches pages.new ≡ P.heap_fetches pages.old }
        ensures quiet { StaysQuiet P.Pages pages.old pages.new }
    {
        let top = fetch_top(pages, self.page, KIND)?;
        let mut found = Bitmap::new(alloc);
        if top.level() == 0 {
            push_rows(self.page, &top, &mut found)?;
            return Ok(found);
        }
        let all = survey(alloc, pages, self.page, KIND, &top)?;
        leaf_rows(pages, all.leaves.as_slice(), &mut found)?;
        Ok(found)
    }

    /// Adds a row, whose number is above all that stand. At most 60 pages more are taken.
    pub fn insert<P: Pages>(
        &mut self,
        alloc: Global,
        pages: &mut P,
        row: RowRef,
    ) -> Result<(), PageError>
        ensures inserted { OnOk result (P.tells → (rows : List RowRef) (feet free : List ℕ) → HoldsRows P.Pages pages.old self.old.page rows feet free → AreBelow rows row.number
            → (later : List ℕ) × (rest : List ℕ) × HoldsRows P.Pages pages.new self.old.page (rows ++ row ∷ []) later rest × KeepsPages P.Pages pages.old pages.new feet free later rest) }
        ensures same { self.new ≡ self.old }
        ensures grows { P.count pages.old ≤ P.count pages.new }
        ensures by { P.count pages.new ≤ P.count pages.old + 60 }
        ensures cause { IfErr result (HasCause (P.faults pages.old) (P.faults pages.new)
            (λ at expected found. P.tells → (rows : List RowRef) (feet free : List ℕ) → HoldsRows P.Pages pages.old self.old.page rows feet free → AreBelow rows row.number → ⊥)
            (IsFull P.tells (P.map pages.new) (P.count pages.new)) (Unit {0})) }
        ensures heap { IsSound result → P.heap_fetches pages.new ≡ P.heap_fetches pages.old }
        ensures quiet { StaysQuiet P.Pages pages.old pages.new }
    {
        let Ok(change) = Appending::new(alloc, row) else {
            return Err(PageError::Memory);
        };
        change_tree(&change, alloc, pages, KIND, self.page)?;
        Ok(())
    }

    /// Takes out the rows whose numbers are among those of `gone`. True exactly where nothing is left. No page is taken or given,
    /// and a page without such rows isn't written.
    pub fn remove_rows<P: Pages>(
        &mut self,
        alloc: Global,
        pages: &mut P,
        gone: &Bitmap,
    ) -> Result<bool, PageError>
        ensures removed { OnOk result (P.tells → (rows : List RowRef) (feet free : List ℕ) → HoldsRows P.Pages pages.old self.old.page rows feet free
            → HoldsRows P.Pages pages.new self.old.page (without gone.now rows) feet free × KeepsPages P.Pages pages.old pages.new feet free feet free) }
        ensures empty { IfOk result (λ empty. P.tells → (rows : List RowRef) (feet free : List ℕ) → HoldsRows P.Pages pages.old self.old.page rows feet free
            → empty ≡ true ↔ without gone.now rows ≡ []) }
        ensures same { self.new ≡ self.old }
        ensures count { P.count pages.new ≡ P.count pages.old }
        ensures cause { IfErr result (HasCause (P.faults pages.old) (P.faults pages.new)
            (λ at expected found. P.tells → HoldsNoRows P.Pages pages.old self.old.page) (λ _. ⊥) (Unit {0})) }
        ensures heap { IsSound result → P.heap_fetches pages.new ≡ P.heap_fetches pages.old }
        ensures quiet { StaysQuiet P.Pages pages.old pages.new }
    {
        let list = leaf_list(alloc, pages, self.page)?;
        strip_pages(alloc, pages, list.as_slice(), gone)
    }

    /// Gives every page back. There is no tree then.
    pub fn drop_all<P: Pages>(self, alloc: Global, pages: &mut P) -> Result<(), PageError>
        ensures dropped { OnOk result (P.tells → (rows : List RowRef) (feet free : List ℕ) → HoldsRows P.Pages pages.old self.page rows feet free
            → (rest : List ℕ) × KeepsPages P.Pages pages.old pages.new feet free [] rest) }
        ensures count { P.count pages.new ≡ P.count pages.old }
        ensures cause { IfErr result (HasCause (P.faults pages.old) (P.faults pages.new)
            (λ at expected found. P.tells → HoldsNoRows P.Pages pages.old self.page) (λ _. ⊥) (Unit {0})) }
        ensures heap { IsSound result → P.heap_fetches pages.new ≡ P.heap_fetches pages.old }
        ensures quiet { StaysQuiet P.Pages pages.old pages.new }
    {
        drop_tree(alloc, pages, self.page, KIND)
    }
}
