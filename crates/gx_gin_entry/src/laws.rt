//! What pages hold.

ghost use Rattle.std.specs.Prelude.{◌≡◌, ℕ, List};
ghost use Rattle.gx_gin_entry.specs.EntryTrees.{Entry, HoldsMap};

use gx_pages::Pages;

/// Pages hold one map at most below a page, on one list of pages.
pub fn one_map<P: Pages>(_pages: &P)
    ensures { (pages : P) (root : ℕ) (list other : List Entry) (feet more : List ℕ) → HoldsMap (P.map pages) (P.count pages) root list feet → HoldsMap (P.map pages) (P.count pages) root other more
        → (list ≡ other) × (feet ≡ more) }
{}
