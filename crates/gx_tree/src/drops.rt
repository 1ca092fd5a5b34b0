//! A tree that is given back.

ghost use Rattle.std.specs.Prelude.{◌≡◌, ◌≢◌, ℕ, ◌<◌, ◌≤◌, List, [], ◌∷◌, ◌++◌, IfOk, IfErr, OnOk};
ghost use Rattle.std.specs.List.{AllByRecursion};
ghost use Rattle.gx_pages.specs.Footprints.{KeepsPages, StaysQuiet};
ghost use Rattle.gx_pages.specs.Frees.{IsApart, IsFreeList};
ghost use Rattle.gx_pages.specs.Pages.{HasCause};
ghost use Rattle.gx_chain.specs.Chains.{IsSound};
ghost use Rattle.gx_tree.specs.Trees.{Holds, HoldsBeside, HoldsNone, Tree, footprint};
ghost use Rattle.gx_tree.specs.Dropping.{Gives};

use crate::fetching::fetch_top;
use crate::walk::{TreePages, survey};
use gx_chain::fetch_slots;
use gx_pages::{PageError, Pages};
use std::alloc::Global;

/// Gives every page of a tree back. There is no tree then.
pub fn drop_tree<P: Pages>(
    alloc: Global,
    pages: &mut P,
    root: u64,
    kind: u8,
) -> Result<(), PageError>
    ensures dropped { OnOk result (P.tells → (tree : Tree) (free : List ℕ) → HoldsBeside P.Pages pages.old kind root tree free
        → (rest : List ℕ) × KeepsPages P.Pages pages.old pages.new (footprint tree) free [] rest) }
    ensures count { P.count pages.new ≡ P.count pages.old }
    ensures cause { IfErr result (HasCause (P.faults pages.old) (P.faults pages.new)
        (λ at expected found. P.tells → (tree : Tree) (free : List ℕ) → HoldsBeside P.Pages pages.old kind root tree free → ⊥) (λ _. ⊥) (Unit {0})) }
    ensures heap { kind ≢ 2 → IsSound result → P.heap_fetches pages.new ≡ P.heap_fetches pages.old }
    ensures quiet { StaysQuiet P.Pages pages.old pages.new }
{
    let all = all_pages(alloc, pages, root, kind)?;
    give_pages(pages, kind, all.as_slice())
}

/// All pages of a tree, those above level 0 first.
fn all_pages<P: Pages>(
    alloc: Global,
    pages: &mut P,
    root: u64,
    kind: u8,
) -> Result<Vec<u64>, PageError>
    ensures all { IfOk result (λ all. P.tells → (tree : Tree) → Holds (P.map pages.old) (P.count pages.old) kind root tree → all.items ≡ footprint tree) }
    ensures cause { IfErr result (HasCause (P.faults pages.old) (P.faults pages.new)
        (λ at expected found. P.tells → HoldsNone (P.map pages.old) (P.count pages.old) kind root) (λ _. ⊥) (Unit {0})) }
    ensures map { P.map pages.new ≡ P.map pages.old }
    ensures count { P.count pages.new ≡ P.count pages.old }
    ensures heap { kind ≢ 2 → IsSound result → P.heap_fetches pages.new ≡ P.heap_fetches pages.old }
    ensures quiet { StaysQuiet P.Pages pages.old pages.new }
{
    let top = fetch_top(pages, root, kind)?;
    if top.level() == 0 {
        let mut all = Vec::new(alloc);
        let Ok(()) = all.push(root) else {
            return Err(PageError::Memory);
        };
        return Ok(all);
    }
    let TreePages { uppers, leaves } = survey(alloc, pages, root, kind, &top)?;
    let mut all = uppers;
    let Ok(()) = all.extend_from_slice(leaves.as_slice()) else {
        return Err(PageError::Memory);
    };
    Ok(all)
}

/// Gives these pages back, which are slot pages of this kind.
fn give_pages<P: Pages>(pages: &mut P, kind: u8, list: &[u64]) -> Result<(), PageError>
    ensures given { OnOk result (P.tells → (free : List ℕ) → Gives P.Pages pages.old kind list.now free
        → (rest : List ℕ) × KeepsPages P.Pages pages.old pages.new list.now free [] rest) }
    ensures count { P.count pages.new ≡ P.count pages.old }
    ensures cause { IfErr result (HasCause (P.faults pages.old) (P.faults pages.new)
        (λ at expected found. P.tells → (free : List ℕ) → Gives P.Pages pages.old kind list.now free → ⊥) (λ _. ⊥) (Unit {0})) }
    ensures heap { kind ≢ 2 → IsSound result → P.heap_fetches pages.new ≡ P.heap_fetches pages.old }
    ensures quiet { StaysQuiet P.Pages pages.old pages.new }
{
    for page in list {
        fetch_slots(pages, *page, kind)?;
        pages.give(*page)?;
    }
    Ok(())
}
