//! A tree is dropped.

ghost use Rattle.std.specs.Prelude.{◌≡◌, ◌≢◌, ℕ, suc, ◌<◌, List, [], ◌++◌, IfErr, OnOk};
ghost use Rattle.std.specs.List.{flat_map};
ghost use Rattle.std.specs.List.Sorted.{IsPermutation};
ghost use Rattle.gx_pages.specs.Frees.{IsApart, IsFreeList, KeepsHeader};
ghost use Rattle.gx_pages.specs.Footprints.{ChangesOnly, KeepsPages, StaysQuiet};
ghost use Rattle.gx_pages.specs.Pages.{HasCause};
ghost use Rattle.gx_chain.specs.Chains.{IsSound as IsUnbroken};
ghost use Rattle.gx_gist_tree.specs.Trees.{Node, pages_of};
ghost use Rattle.gx_gist_tree.specs.OnPages.{Holds, HoldsBeside, IsBelow, IsRead, Whole, footprint};

use crate::items::GIST;
use crate::reading::{fetch_level, root_level};
use crate::removal::child_in;
use crate::tree::Tree;
use gx_chain::fetch_slots;
use gx_gist::{GistClass, OnBytes};
use gx_pages::{PageError, Pages};
use gx_slot::SlotPage;

/// Gives a page, which is read already, and all pages below it back.
#[cycle(dropping)]
fn drop_page<P: Pages, C: GistClass>(
    class: &C,
    pages: &mut P,
    slots: &SlotPage,
    page: u64,
    level: u8,
) -> Result<(), PageError>
    requires nonzero { page ≢ 0 }
    requires below { page < P.count pages.old }
    ensures dropped { OnOk result (P.tells → (node : Node C.Key level) → IsRead C.GistClass class.now (P.map pages.old) (P.count pages.old) level node slots.now page → (free : List ℕ) → IsFreeList (P.map pages.old) (P.count pages.old) free
        → IsApart (pages_of C.Key level node ++ free)
        → (rest : List ℕ) × IsFreeList (P.map pages.new) (P.count pages.new) rest × IsPermutation (pages_of C.Key level node ++ free) rest × ChangesOnly (P.map pages.old) (P.map pages.new) (pages_of C.Key level node)) }
    ensures cause { IfErr result (HasCause (P.faults pages.old) (P.faults pages.new)
        (λ at expected found. P.tells → (node : Node C.Key level) → IsRead C.GistClass class.now (P.map pages.old) (P.count pages.old) level node slots.now page → (free : List ℕ) → IsFreeList (P.map pages.old) (P.count pages.old) free → IsApart (pages_of C.Key level node ++ free) → ⊥) (λ _. ⊥) (Unit {0})) }
    ensures header { P.tells → KeepsHeader (P.map pages.old) (P.map pages.new) }
    ensures count { P.count pages.new ≡ P.count pages.old }
    ensures other { IsUnbroken result → P.heap_fetches pages.new ≡ P.heap_fetches pages.old }
    ensures quiet { StaysQuiet P.Pages pages.old pages.new }
{
    if level == 0 {
        pages.give(page)?;
        return Ok(());
    }
    drop_items(class, pages, slots, page, level - 1)?;
    pages.give(page)?;
    Ok(())
}

/// Gives the pages below the items of a page back; `below` is the level below it.
#[cycle(dropping)]
fn drop_items<P: Pages, C: GistClass>(
    class: &C,
    pages: &mut P,
    slots: &SlotPage,
    page: u64,
    below: u8,
) -> Result<(), PageError>
    ensures dropped { OnOk result (P.tells → (node : Node C.Key (suc below)) → IsRead C.GistClass class.now (P.map pages.old) (P.count pages.old) (suc below) node slots.now page → (free : List ℕ) → IsFreeList (P.map pages.old) (P.count pages.old) free
        → IsApart (pages_of C.Key (suc below) node ++ free)
        → (rest : List ℕ) × IsFreeList (P.map pages.new) (P.count pages.new) rest × IsPermutation (flat_map (λ item. pages_of C.Key below item.1) node.1 ++ free) rest × ChangesOnly (P.map pages.old) (P.map pages.new) (flat_map (λ item. pages_of C.Key below item.1) node.1)) }
    ensures cause { IfErr result (HasCause (P.faults pages.old) (P.faults pages.new)
        (λ at expected found. P.tells → (node : Node C.Key (suc below)) → IsRead C.GistClass class.now (P.map pages.old) (P.count pages.old) (suc below) node slots.now page → (free : List ℕ) → IsFreeList (P.map pages.old) (P.count pages.old) free → IsApart (pages_of C.Key (suc below) node ++ free) → ⊥) (λ _. ⊥) (Unit {0})) }
    ensures header { P.tells → KeepsHeader (P.map pages.old) (P.map pages.new) }
    ensures count { P.count pages.new ≡ P.count pages.old }
    ensures other { IsUnbroken result → P.heap_fetches pages.new ≡ P.heap_fetches pages.old }
    ensures quiet { StaysQuiet P.Pages pages.old pages.new }
{
    for slot in 0..slots.count() {
        drop_slot(class, pages, slots, slot, page, below)?;
    }
    Ok(())
}

/// Gives the pages below an item back.
#[cycle(dropping)]
fn drop_slot<P: Pages, C: GistClass>(
    class: &C,
    pages: &mut P,
    slots: &SlotPage,
    slot: u16,
    page: u64,
    below: u8,
) -> Result<(), PageError>
    ensures dropped { OnOk result (P.tells → (key : C.Key) (child : Node C.Key below) → IsBelow C.GistClass class.now (P.map pages.old) (P.count pages.old) below key child slots.now slot → (free : List ℕ) → IsFreeList (P.map pages.old) (P.count pages.old) free
        → IsApart (pages_of C.Key below child ++ free)
        → (rest : List ℕ) × IsFreeList (P.map pages.new) (P.count pages.new) rest × IsPermutation (pages_of C.Key below child ++ free) rest × ChangesOnly (P.map pages.old) (P.map pages.new) (pages_of C.Key below child)) }
    ensures cause { IfErr result (HasCause (P.faults pages.old) (P.faults pages.new)
        (λ at expected found. P.tells → (key : C.Key) (child : Node C.Key below) → IsBelow C.GistClass class.now (P.map pages.old) (P.count pages.old) below key child slots.now slot → (free : List ℕ) → IsFreeList (P.map pages.old) (P.count pages.old) free → IsApart (pages_of C.Key below child ++ free) → ⊥) (λ _. ⊥) (Unit {0})) }
    ensures header { P.tells → KeepsHeader (P.map pages.old) (P.map pages.new) }
    ensures count { P.count pages.new ≡ P.count pages.old }
    ensures other { IsUnbroken result → P.heap_fetches pages.new ≡ P.heap_fetches pages.old }
    ensures quiet { StaysQuiet P.Pages pages.old pages.new }
{
    let child = child_in(slots, slot, page)?;
    let inner = fetch_level(pages, child, below)?;
    drop_page(class, pages, &inner, child, below)?;
    Ok(())
}

impl<C: OnBytes> Tree<C> {
    /// Gives every page back. Broken where the map doesn't hold the tree, or no free pages beside it.
    pub fn drop_all<P: Pages>(self, pages: &mut P) -> Result<(), PageError>
        requires class { C.valid self.class }
        ensures dropped { OnOk result (P.tells → (before : Whole C.Key) (free : List ℕ) → HoldsBeside P.Pages C.GistClass self.class pages.old self.root before free
            → (rest : List ℕ) × KeepsPages P.Pages pages.old pages.new (footprint before) free [] rest) }
        ensures count { P.count pages.new ≡ P.count pages.old }
        ensures cause { IfErr result (HasCause (P.faults pages.old) (P.faults pages.new)
            (λ at expected found. P.tells → (before : Whole C.Key) (free : List ℕ) → ¬ HoldsBeside P.Pages C.GistClass self.class pages.old self.root before free) (λ _. ⊥) (Unit {0})) }
        ensures heap { P.tells → (before : Whole C.Key) (free : List ℕ) → HoldsBeside P.Pages C.GistClass self.class pages.old self.root before free
            → P.heap_fetches pages.new ≡ P.heap_fetches pages.old }
        ensures quiet { StaysQuiet P.Pages pages.old pages.new }
    {
        give_all(&self.class, pages, self.root)?;
        Ok(())
    }
}

/// Gives every page of a tree back.
fn give_all<P: Pages, C: GistClass>(class: &C, pages: &mut P, root: u64) -> Result<(), PageError>
    requires class { C.valid class.now }
    ensures dropped { OnOk result (P.tells → (before : Whole C.Key) (free : List ℕ) → HoldsBeside P.Pages C.GistClass class.now pages.old root before free
        → (rest : List ℕ) × KeepsPages P.Pages pages.old pages.new (footprint before) free [] rest) }
    ensures cause { IfErr result (HasCause (P.faults pages.old) (P.faults pages.new)
        (λ at expected found. P.tells → (before : Whole C.Key) (free : List ℕ) → ¬ HoldsBeside P.Pages C.GistClass class.now pages.old root before free) (λ _. ⊥) (Unit {0})) }
    ensures count { P.count pages.new ≡ P.count pages.old }
    ensures other { IsUnbroken result → P.heap_fetches pages.new ≡ P.heap_fetches pages.old }
    ensures quiet { StaysQuiet P.Pages pages.old pages.new }
{
    let slots = fetch_slots(pages, root, GIST)?;
    let level = root_level(&slots, root)?;
    drop_page(class, pages, &slots, root, level)?;
    Ok(())
}
