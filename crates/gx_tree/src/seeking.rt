//! The page of level 0 where a key belongs.

ghost use Rattle.std.specs.Prelude.{◌≡◌, ◌≢◌, ℕ, zero, suc, ◌+◌, ◌<◌, ◌≤◌, List, Option, IfOk, IfErr};
ghost use Rattle.gx_pages.specs.Footprints.{StaysQuiet};
ghost use Rattle.gx_pages.specs.Pages.{HasCause};
ghost use Rattle.gx_chain.specs.Chains.{IsSound};
ghost use Rattle.gx_tree.specs.Finding.{LeafAt, Stands};
ghost use Rattle.gx_tree.specs.Trees.{Node, slots_of};

use crate::changing::broken;
use crate::children::child_at;
use crate::choosing::choose;
use crate::fetching::fetch_level;
use crate::orders::Seek;
use gx_pages::{PageError, Pages};
use gx_slot::SlotPage;

/// A page of level 0.
#[derive(Drop)]
pub struct LeafPage {
    pub page: u64,
    pub slots: SlotPage,
}

/// The page of level 0 below one that is read where the key belongs that is sought. A page a level is fetched.
pub fn find_leaf<P: Pages, S: Seek>(
    seek: &S,
    pages: &mut P,
    kind: u8,
    page: u64,
    level: u8,
    slots: SlotPage,
) -> Result<LeafPage, PageError>
    ensures found { IfOk result (λ found. P.tells → (least end : Option (List ℕ)) (node : Node level) → Stands P.Pages pages.old S.order kind level page least end node → slots ≡ slots_of kind level node
        → LeafAt P.Pages pages.old S.order (S.sought seek.now) kind level least end node found.page found.slots) }
    ensures cause { IfErr result (HasCause (P.faults pages.old) (P.faults pages.new)
        (λ at expected found. P.tells → (least end : Option (List ℕ)) (node : Node level) → Stands P.Pages pages.old S.order kind level page least end node → slots ≡ slots_of kind level node → ⊥) (λ _. ⊥) (Unit {0})) }
    ensures map { P.map pages.new ≡ P.map pages.old }
    ensures count { P.count pages.new ≡ P.count pages.old }
    ensures heap { kind ≢ 2 → IsSound result → P.heap_fetches pages.new ≡ P.heap_fetches pages.old }
    ensures fetches { P.fetches pages.new ≤ P.fetches pages.old + level }
    ensures quiet { StaysQuiet P.Pages pages.old pages.new }
{
    if level == 0 {
        return Ok(LeafPage { page, slots });
    }
    let slot = choose(seek, page, &slots)?;
    let Some(child) = child_at(&slots, slot) else {
        return Err(broken(page));
    };
    let inner = fetch_level(pages, child, kind, level - 1)?;
    find_leaf(seek, pages, kind, child, level - 1, inner)
}
