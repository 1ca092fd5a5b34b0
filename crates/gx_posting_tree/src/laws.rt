//! What pages hold.

ghost use Rattle.std.specs.Prelude.{◌≡◌, ℕ, List};
ghost use Rattle.gx_pages.specs.declared.row.RowRef.{RowRef};
ghost use Rattle.gx_posting_tree.specs.PostingTrees.{HoldsList};

use gx_pages::Pages;

/// Pages hold one posting tree at most below a page, on one list of pages.
pub fn one_list<P: Pages>(_pages: &P)
    ensures { (pages : P) (root : ℕ) (rows other : List RowRef) (feet more : List ℕ) → HoldsList (P.map pages) (P.count pages) root rows feet → HoldsList (P.map pages) (P.count pages) root other more
        → (rows ≡ other) × (feet ≡ more) }
{}
