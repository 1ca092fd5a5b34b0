//! A map holds at most one chain, which stays while other structures change, and an empty database has an empty chain.

ghost use Rattle.std.specs.Prelude.{◌≡◌, ℕ, ◌<◌, ◌≤◌, List, [], ◌∷◌, ◌++◌, Some};
ghost use Rattle.std.specs.List.{AllByRecursion};
ghost use Rattle.gx_words.specs.PageMap.{PageMap};
ghost use Rattle.gx_pages.specs.Databases.{catalog_page};
ghost use Rattle.gx_pages.specs.Footprints.{KeepsPages};
ghost use Rattle.gx_pages.specs.Frees.{IsApart};
ghost use Rattle.gx_chain.specs.declared.chain.Chain.{Chain};
ghost use Rattle.gx_chain.specs.Chains.{Link, Holds, HoldsBeside, pages_of};

use gx_pages::Pages;

/// A map holds at most one chain with this first page.
pub fn one_chain()
    ensures { (map : PageMap) (count kind : ℕ) (chain other : Chain) (links others : List Link) → chain.first ≡ other.first
        → Holds map count kind chain links → Holds map count kind other others → links ≡ others }
{}

/// A chain stays where another structure changes, or several that are seen as one, whose pages lie apart from those of the
/// chain.
pub fn chain_stays<P: Pages>(_pages: &P)
    ensures { (old new : P) (kind : ℕ) (chain : Chain) (links : List Link) (before free after rest : List ℕ) → HoldsBeside P.Pages old kind chain links free
        → KeepsPages P.Pages old new before free after rest → IsApart (before ++ free ++ pages_of links) → AllByRecursion (λ page. page < P.count old) before
        → HoldsBeside P.Pages new kind chain links rest }
{}

/// A chain stays where its pages are as they were.
pub fn same_chain()
    ensures { (old new : PageMap) (count later kind : ℕ) (chain : Chain) (links : List Link) → AllByRecursion (λ page. new page ≡ old page) (pages_of links) → count ≤ later
        → Holds old count kind chain links → Holds new later kind chain links }
{}

/// The catalog page of an empty database is a chain without items.
pub fn empty_chain()
    ensures { (map : PageMap) (count : ℕ) → map 1 ≡ Some catalog_page → 1 < count
        → Holds map count 3 (record { first = 1; last = 1; pages = 1 }) ((1, []) ∷ []) }
{}
