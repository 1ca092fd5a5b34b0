//! Other items on a page of level 0.

ghost use Rattle.std.specs.Prelude.{◌≡◌, ◌≢◌, ℕ, ◌≤◌, List, ◌++◌, None, IfErr, OnOk};
ghost use Rattle.gx_pages.specs.Footprints.{StaysQuiet};
ghost use Rattle.gx_pages.specs.Pages.{HasCause};
ghost use Rattle.gx_slot.specs.Slots.{Slots};
ghost use Rattle.gx_tree.specs.Finding.{LeafAt, Rewritten};
ghost use Rattle.gx_tree.specs.Trees.{HoldsBeside, Tree, slots_of};

use crate::changing::broken;
use crate::orders::Seek;
use gx_pages::{PageError, Pages};
use gx_slot::SlotPage;

/// Writes other items to the page of level 0 that was found: they stand between the same keys. No page is taken or given.
pub fn rewrite_leaf<P: Pages, S: Seek>(
    _seek: &S,
    pages: &mut P,
    page: u64,
    slots: &SlotPage,
) -> Result<(), PageError>
    ensures rewritten { OnOk result (P.tells → (kind root : ℕ) (tree : Tree) (free : List ℕ) (was : Slots) (items : List (List ℕ)) → HoldsBeside P.Pages pages.old kind root tree free
        → (leaf : LeafAt P.Pages pages.old S.order (S.sought _seek.now) kind tree.0 None None tree.1 page was) → slots.now ≡ slots_of kind 0 (page, items) → S.order.AreIn leaf.from leaf.to items
        → Rewritten P.Pages pages.old pages.new S.order kind root tree free (leaf.front ++ items ++ leaf.back)) }
    ensures count { P.count pages.new ≡ P.count pages.old }
    ensures cause { IfErr result (HasCause (P.faults pages.old) (P.faults pages.new)
        (λ at expected found. P.tells → (kind root : ℕ) (tree : Tree) (free : List ℕ) (was : Slots) → HoldsBeside P.Pages pages.old kind root tree free
        → LeafAt P.Pages pages.old S.order (S.sought _seek.now) kind tree.0 None None tree.1 page was → ⊥) (λ _. ⊥) (Unit {0})) }
    ensures heap { P.heap_fetches pages.new ≡ P.heap_fetches pages.old }
    ensures quiet { StaysQuiet P.Pages pages.old pages.new }
{
    if page == 0 {
        return Err(broken(page));
    }
    pages.put(page, slots.page())?;
    Ok(())
}
