//! What holds of indexes on pages.

ghost use Rattle.std.specs.Prelude.{ℕ, ◌<◌, List, ◌++◌};
ghost use Rattle.std.specs.List.{AllByRecursion};
ghost use Rattle.gx_words.specs.PageMap.{PageMap};
ghost use Rattle.gx_pages.specs.Footprints.{KeepsPages};
ghost use Rattle.gx_pages.specs.Frees.{IsApart};
ghost use Rattle.gx_gin_scan.specs.Gins.{HoldsGin, HoldsLists};
ghost use Rattle.gx_gin_scan.specs.Lists.{Lists};

use gx_pages::Pages;

/// The pages of an index are below the count. It stays where another structure changes, or several that are seen as one, whose pages
/// lie apart from its own.
pub fn index_stays<P: Pages>(_pages: &P)
    ensures below { (map : PageMap) (count root : ℕ) (lists : Lists) (feet : List ℕ) → HoldsLists map count root lists feet → AllByRecursion (λ page. page < count) feet }
    ensures stays { (old new : P) (root : ℕ) (lists : Lists) (feet before free after rest : List ℕ) → HoldsGin P.Pages old root lists feet free → KeepsPages P.Pages old new before free after rest
        → IsApart (before ++ free ++ feet) → AllByRecursion (λ page. page < P.count old) before → HoldsGin P.Pages new root lists feet rest }
{}
