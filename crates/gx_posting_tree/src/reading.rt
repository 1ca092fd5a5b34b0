//! The rows of pages of level 0.

ghost use Rattle.std.specs.Prelude.{◌≡◌, ◌≢◌, ℕ, ◌+◌, ◌<◌, ◌≤◌, List, ◌++◌, length, map, Some, IfErr, OnOk};
ghost use Rattle.std.specs.List.{AllByRecursion};
ghost use Rattle.gx_pages.specs.declared.row.RowRef.{RowRef};
ghost use Rattle.gx_pages.specs.Footprints.{StaysQuiet};
ghost use Rattle.gx_pages.specs.Pages.{HasCause};
ghost use Rattle.gx_pages.specs.Rows.{IsRising};
ghost use Rattle.gx_chain.specs.Chains.{IsSound};
ghost use Rattle.gx_tree.specs.Trees.{IsBrokenOr, IsOn, Leaf, items_of, numbers};
ghost use Rattle.gx_posting_tree.specs.PostingTrees.{AreSpelled};

use gx_pages::{Bitmap, PageError, Pages};
use gx_posting::read_posting;
use gx_slot::SlotPage;
use gx_tree::fetch_level;

/// The kind of the pages of posting trees.
pub const KIND: u8 = 6;

/// Adds the rows of a page of level 0.
pub fn push_rows(page: u64, slots: &SlotPage, to: &mut Bitmap) -> Result<(), PageError>
    ensures ok { OnOk result ((items : List (List ℕ)) (rows : List RowRef) → slots.now.items ≡ map (λ item. Some item) items → AreSpelled items rows → to.new ≡ to.old ++ rows) }
    ensures cause { IfErr result (IsBrokenOr page ((items : List (List ℕ)) (rows : List RowRef) → slots.now.items ≡ map (λ item. Some item) items → AreSpelled items rows
        → IsRising (to.old ++ rows) → ⊥)) }
{
    for slot in 0..slots.count() {
        let Some(item) = slots.item(slot) else {
            return Err(no_list(page));
        };
        match read_posting(item, to) {
            Ok(true) => (),
            Ok(false) => return Err(no_list(page)),
            Err(_) => return Err(PageError::Memory),
        }
    }
    Ok(())
}

/// A page has no posting list where one has to stand.
pub fn no_list(page: u64) -> PageError
    ensures { result ≡ PageError.Broken page 1 0 }
{
    PageError::Broken {
        page,
        expected: 1,
        found: 0,
    }
}

/// Adds the rows of pages of level 0.
pub fn leaf_rows<P: Pages>(pages: &mut P, list: &[u64], to: &mut Bitmap) -> Result<(), PageError>
    ensures ok { OnOk result (P.tells → (leaves : List Leaf) (rows : List RowRef) → list.now ≡ numbers leaves → AllByRecursion (IsOn (P.map pages.old) 6 0) leaves
        → AreSpelled (items_of leaves) rows → to.new ≡ to.old ++ rows) }
    ensures cause { IfErr result (HasCause (P.faults pages.old) (P.faults pages.new)
        (λ at expected found. P.tells → (leaves : List Leaf) (rows : List RowRef) → list.now ≡ numbers leaves → AllByRecursion (IsOn (P.map pages.old) 6 0) leaves
        → AllByRecursion (λ page. page < P.count pages.old) list.now → AreSpelled (items_of leaves) rows → IsRising (to.old ++ rows) → ⊥) (λ _. ⊥) (Unit {0})) }
    ensures map { P.map pages.new ≡ P.map pages.old }
    ensures count { P.count pages.new ≡ P.count pages.old }
    ensures heap { IsSound result → P.heap_fetches pages.new ≡ P.heap_fetches pages.old }
    ensures fetches { P.fetches pages.new ≤ P.fetches pages.old + length list.now }
    ensures quiet { StaysQuiet P.Pages pages.old pages.new }
{
    for page in list {
        let slots = fetch_level(pages, *page, KIND, 0)?;
        push_rows(*page, &slots, to)?;
    }
    Ok(())
}
