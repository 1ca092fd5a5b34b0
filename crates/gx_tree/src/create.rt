//! A new tree.

ghost use Rattle.std.specs.Prelude.{◌≡◌, ℕ, ◌+◌, ◌≤◌, List, [], ◌∷◌, map, Some, IfOk, IfErr};
ghost use Rattle.gx_pages.specs.Footprints.{KeepsPages, StaysQuiet};
ghost use Rattle.gx_pages.specs.Frees.{IsFreeList, IsFull};
ghost use Rattle.gx_pages.specs.Pages.{HasCause};
ghost use Rattle.gx_chain.specs.Chains.{ListsNone};
ghost use Rattle.gx_tree.specs.Trees.{HoldsBeside, slots as page_slots};

use gx_pages::{PageError, Pages};
use gx_slot::SlotPage;

/// The root page of a tree without items, which it takes.
pub fn create_tree<P: Pages>(pages: &mut P, kind: u8) -> Result<u64, PageError>
    ensures made { IfOk result (λ root. P.tells → (free : List ℕ) → IsFreeList (P.map pages.old) (P.count pages.old) free
        → (rest : List ℕ) × HoldsBeside P.Pages pages.new kind root (0, (root, [])) rest × KeepsPages P.Pages pages.old pages.new [] free (root ∷ []) rest) }
    ensures grows { P.count pages.old ≤ P.count pages.new }
    ensures by_one { P.count pages.new ≤ P.count pages.old + 1 }
    ensures cause { IfErr result (HasCause (P.faults pages.old) (P.faults pages.new)
        (λ at expected found. P.tells → ListsNone P.Pages pages.old) (IsFull P.tells (P.map pages.new) (P.count pages.new)) (Unit {0})) }
    ensures heap { P.heap_fetches pages.new ≡ P.heap_fetches pages.old }
    ensures quiet { StaysQuiet P.Pages pages.old pages.new }
{
    let slots = SlotPage::new(kind, 0);
    create_leaf(pages, &slots)
}

/// The root page of a tree with the items of a page of level 0, which it takes.
pub fn create_leaf<P: Pages>(pages: &mut P, slots: &SlotPage) -> Result<u64, PageError>
    ensures made { IfOk result (λ root. P.tells → (kind : ℕ) (items : List (List ℕ)) (free : List ℕ) → slots.now ≡ page_slots kind 0 (map (λ item. Some item) items)
        → IsFreeList (P.map pages.old) (P.count pages.old) free
        → (rest : List ℕ) × HoldsBeside P.Pages pages.new kind root (0, (root, items)) rest × KeepsPages P.Pages pages.old pages.new [] free (root ∷ []) rest) }
    ensures grows { P.count pages.old ≤ P.count pages.new }
    ensures by_one { P.count pages.new ≤ P.count pages.old + 1 }
    ensures cause { IfErr result (HasCause (P.faults pages.old) (P.faults pages.new)
        (λ at expected found. P.tells → ListsNone P.Pages pages.old) (IsFull P.tells (P.map pages.new) (P.count pages.new)) (Unit {0})) }
    ensures heap { P.heap_fetches pages.new ≡ P.heap_fetches pages.old }
    ensures quiet { StaysQuiet P.Pages pages.old pages.new }
{
    let root = pages.take()?;
    pages.put(root, slots.page())?;
    Ok(root)
}
