//! What trees are.

ghost use Rattle.std.specs.Prelude.{◌≡◌, ℕ, ◌^◌, ◌<◌, ◌≤◌, List, ◌++◌, filter};
ghost use Rattle.std.specs.List.{AllByRecursion};
ghost use Rattle.gx_words.specs.PageMap.{PageMap};
ghost use Rattle.gx_pages.specs.declared.row.RowRef.{RowRef};
ghost use Rattle.gx_pages.specs.Footprints.{KeepsPages};
ghost use Rattle.gx_pages.specs.Frees.{IsApart};
ghost use Rattle.gx_gist_tree.specs.Trees.{Node, Outcome, entries, found, passes, AreTrees, Inserts, IsLeafKey, IsTree};
ghost use Rattle.gx_gist_tree.specs.OnPages.{Whole, Holds, HoldsBeside, footprint};

use gx_gist::GistClass;
use gx_pages::Pages;

/// A search that goes only where a key doesn't rule the query out finds just what passes.
pub fn search_is_exact<C: GistClass>(class: &C, query: &C::Query)
    requires class { C.valid class.now }
    requires query { C.valid_query class.now query.now }
    ensures { (level : ℕ) (node : Node C.Key level) → IsTree (C.valid_value class.now) (C.valid_key class.now) (C.leaf_of class.now) (C.over class.now) level node
        → found (λ k. C.leaf_test class.now k query.now) (λ k. C.inner_test class.now k query.now) level node
        ≡ filter (λ e. passes (C.leaf_test class.now e.1 query.now)) (entries level node) }
{}

/// After an insert each key above level 0 is over the leaf keys below it, whatever order the keys of a page have and wherever pages were split.
pub fn insert_is_sound<C: GistClass>(class: &C)
    requires class { C.valid class.now }
    ensures { (row : RowRef) (key : C.Key) → IsLeafKey (C.valid_value class.now) (C.leaf_of class.now) key
        → (level : ℕ) (node : Node C.Key level) (out : Outcome C.Key level) → Inserts (C.union_of class.now) row key level node out
        → IsTree (C.valid_value class.now) (C.valid_key class.now) (C.leaf_of class.now) (C.over class.now) level node
        → AreTrees (C.valid_value class.now) (C.valid_key class.now) (C.leaf_of class.now) (C.over class.now) level out }
{}

/// A map holds at most one tree below a root page.
pub fn one_tree<C: GistClass>(class: &C)
    requires { C.valid class.now }
    ensures { (map : PageMap) (count root : ℕ) (tree other : Whole C.Key) → count ≤ 2 ^ 50 → Holds C.GistClass class.now map count root tree
        → Holds C.GistClass class.now map count root other → tree ≡ other }
{}

/// A tree stays where its pages are as they were.
pub fn same_tree<C: GistClass>(class: &C)
    ensures { (old new : PageMap) (count later root : ℕ) (tree : Whole C.Key) → AllByRecursion (λ page. new page ≡ old page) (footprint tree) → count ≤ later
        → Holds C.GistClass class.now old count root tree → Holds C.GistClass class.now new later root tree }
{}

/// A tree stays where another structure changes, or several that are seen as one, whose pages lie apart from those of the
/// tree.
pub fn tree_stays<P: Pages, C: GistClass>(_pages: &P, class: &C)
    ensures { (old new : P) (root : ℕ) (tree : Whole C.Key) (before free after rest : List ℕ) → HoldsBeside P.Pages C.GistClass class.now old root tree free
        → KeepsPages P.Pages old new before free after rest → IsApart (before ++ free ++ footprint tree) → AllByRecursion (λ page. page < P.count old) before
        → HoldsBeside P.Pages C.GistClass class.now new root tree rest }
{}
