//! What other changes leave of a tree.

ghost use Rattle.std.specs.Prelude.{ℕ, List, ◌++◌};
ghost use Rattle.gx_pages.specs.Footprints.{KeepsPages};
ghost use Rattle.gx_pages.specs.Frees.{IsApart};
ghost use Rattle.gx_tree.specs.Trees.{Holds, Tree, footprint};

use gx_pages::Pages;

/// A tree stays where another structure changed, which lies apart from it, and its free pages do.
pub fn tree_stays<P: Pages>(_pages: &P)
    ensures { (old new : P) (kind root : ℕ) (tree : Tree) (before free after rest : List ℕ) → Holds (P.map old) (P.count old) kind root tree
        → KeepsPages P.Pages old new before free after rest → IsApart (before ++ free ++ footprint tree) → Holds (P.map new) (P.count new) kind root tree }
{}
