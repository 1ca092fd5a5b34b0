//! A tree of keys.

ghost use Rattle.std.specs.Prelude.{◌≡◌, ℕ, ◌+◌, ◌^◌, ◌≤◌, List, [], ◌∷◌, map, filter, IfOk, IfErr, OnOk, IsPermutation};
ghost use Rattle.gx_pages.specs.declared.row.RowRef.{RowRef};
ghost use Rattle.gx_pages.specs.Footprints.{KeepsPages, StaysQuiet};
ghost use Rattle.gx_pages.specs.Frees.{IsFreeList, IsFull};
ghost use Rattle.gx_pages.specs.Pages.{HasCause};
ghost use Rattle.gx_chain.specs.Chains.{ListsNone, IsSound as IsUnbroken};
ghost use Rattle.gx_gist_tree.specs.Trees.{passes, visits};
ghost use Rattle.gx_gist_tree.specs.OnPages.{Whole, Holds, HoldsBeside, entries_of};

use crate::found::Found;
use crate::items::GIST;
use crate::laws::search_is_exact;
use crate::reading::{no_item, root_level};
use crate::search::visit_page;
use gx_chain::fetch_slots;
use gx_gist::{GistClass, OnBytes};
use gx_pages::{Bitmap, PageError, Pages};
use gx_slot::SlotPage;
use std::alloc::Global;

/// A tree: its class and its root page.
#[derive(Drop)]
pub struct Tree<C: GistClass> {
    pub class: C,
    pub root: u64,
}

impl<C: OnBytes> Tree<C> {
    /// An empty tree, on a page that it takes.
    pub fn create<P: Pages>(class: C, pages: &mut P) -> Result<Tree<C>, PageError>
        ensures class { IfOk result (λ tree. tree.class ≡ class) }
        ensures made { IfOk result (λ tree. P.tells → (free : List ℕ) → IsFreeList (P.map pages.old) (P.count pages.old) free
            → (rest : List ℕ) × HoldsBeside P.Pages C.GistClass class pages.new tree.root (0, (tree.root, [])) rest
            × KeepsPages P.Pages pages.old pages.new [] free (tree.root ∷ []) rest) }
        ensures grows { P.count pages.old ≤ P.count pages.new }
        ensures by_one { P.count pages.new ≤ P.count pages.old + 1 }
        ensures cause { IfErr result (HasCause (P.faults pages.old) (P.faults pages.new)
            (λ at expected found. P.tells → ListsNone P.Pages pages.old) (IsFull P.tells (P.map pages.new) (P.count pages.new)) (Unit {0})) }
        ensures heap { P.heap_fetches pages.new ≡ P.heap_fetches pages.old }
        ensures quiet { StaysQuiet P.Pages pages.old pages.new }
    {
        let root = pages.take()?;
        let slots = SlotPage::new(GIST, 0);
        pages.put(root, slots.page())?;
        Ok(Tree { class, root })
    }

    /// The tree of a class that has this root page.
    pub fn at(class: C, root: u64) -> Tree<C>
        ensures { result ≡ record { class = class; root = root } }
    {
        Tree { class, root }
    }

    /// Its root page, which stays the same one.
    pub fn root(&self) -> u64
        ensures { result ≡ self.now.root }
    {
        self.root
    }

    /// The rows whose leaf key doesn't rule the query out, by rising numbers. It fetches no more pages than the keys that
    /// don't rule it out lead to. Broken where the map doesn't hold the tree.
    pub fn search<P: Pages>(
        &self,
        alloc: Global,
        pages: &mut P,
        query: &C::Query,
    ) -> Result<Bitmap, PageError>
        requires class { C.valid self.now.class }
        requires query { C.valid_query self.now.class query.now }
        ensures found { IfOk result (λ rows. P.tells → (held : Whole C.Key) → Holds C.GistClass self.now.class (P.map pages.old) (P.count pages.old) self.now.root held
            → IsPermutation (map (λ e. e.0) (filter (λ e. passes (C.leaf_test self.now.class e.1 query.now)) (entries_of held))) rows) }
        ensures visits { P.tells → (held : Whole C.Key) → Holds C.GistClass self.now.class (P.map pages.old) (P.count pages.old) self.now.root held
            → P.fetches pages.new ≤ P.fetches pages.old + visits (λ k. C.inner_test self.now.class k query.now) held.0 held.1 }
        ensures cause { IfErr result (HasCause (P.faults pages.old) (P.faults pages.new)
            (λ at expected found. P.tells → (held : Whole C.Key) → ¬ Holds C.GistClass self.now.class (P.map pages.old) (P.count pages.old) self.now.root held) (λ _. ⊥) (Unit {0})) }
        ensures map { P.map pages.new ≡ P.map pages.old }
        ensures count { P.count pages.new ≡ P.count pages.old }
        ensures heap { P.tells → (held : Whole C.Key) → Holds C.GistClass self.now.class (P.map pages.old) (P.count pages.old) self.now.root held
            → P.heap_fetches pages.new ≡ P.heap_fetches pages.old }
        ensures quiet { StaysQuiet P.Pages pages.old pages.new }
    {
        let rows = self.look(alloc, pages, query)?;
        Ok(rows)
    }

    fn look<P: Pages>(
        &self,
        alloc: Global,
        pages: &mut P,
        query: &C::Query,
    ) -> Result<Bitmap, PageError>
        requires class { C.valid self.now.class }
        requires query { C.valid_query self.now.class query.now }
        ensures found { IfOk result (λ rows. P.tells → (held : Whole C.Key) → Holds C.GistClass self.now.class (P.map pages.old) (P.count pages.old) self.now.root held
            → IsPermutation (map (λ e. e.0) (filter (λ e. passes (C.leaf_test self.now.class e.1 query.now)) (entries_of held))) rows) }
        ensures visits { P.tells → (held : Whole C.Key) → Holds C.GistClass self.now.class (P.map pages.old) (P.count pages.old) self.now.root held
            → P.fetches pages.new ≤ P.fetches pages.old + visits (λ k. C.inner_test self.now.class k query.now) held.0 held.1 }
        ensures cause { IfErr result (HasCause (P.faults pages.old) (P.faults pages.new)
            (λ at expected found. P.tells → (held : Whole C.Key) → ¬ Holds C.GistClass self.now.class (P.map pages.old) (P.count pages.old) self.now.root held) (λ _. ⊥) (Unit {0})) }
        ensures map { P.map pages.new ≡ P.map pages.old }
        ensures count { P.count pages.new ≡ P.count pages.old }
        ensures other { IsUnbroken result → P.heap_fetches pages.new ≡ P.heap_fetches pages.old }
        ensures quiet { StaysQuiet P.Pages pages.old pages.new }
    {
        let root = fetch_slots(pages, self.root, GIST)?;
        let level = root_level(&root, self.root)?;
        let mut so_far = Found::new(alloc);
        visit_page(
            alloc,
            &self.class,
            pages,
            &root,
            self.root,
            level,
            query,
            &mut so_far,
        )?;
        search_is_exact(&self.class, query);
        let Found { rows, seen: _seen } = so_far;
        let Some(bitmap) = Bitmap::of(rows) else {
            return Err(no_item(self.root));
        };
        Ok(bitmap)
    }
}
