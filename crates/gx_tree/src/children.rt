//! The pages that the items of a page name.

ghost use Rattle.std.specs.Prelude.{◌≡◌, ℕ, ◌^◌, ◌<◌, List, ◌++◌, length, map, get_or, Some, IfErr, OnOk};
ghost use Rattle.std.specs.List.{AllByRecursion};
ghost use Rattle.gx_slot.specs.Slots.{IsBroken};
ghost use Rattle.gx_tree.specs.Trees.{IsBrokenOr, link};

use gx_bytes::get_u64;
use gx_pages::PageError;
use gx_slot::SlotPage;

/// The page that the item in a slot names. None where there is no such item.
pub fn child_at(slots: &SlotPage, slot: u16) -> Option<u64>
    ensures { (items : List (List ℕ × ℕ)) (front : List ℕ) (child : ℕ) → slots.now.items ≡ map link items → AllByRecursion (λ item. item.1 < 2 ^ 64) items → slot < length items
        → result ≡ Some (get_or items slot (front, child)).1 }
{
    let item = slots.item(slot)?;
    let front = item.len().checked_sub(8)?;
    let child = get_u64(item, front)?;
    Some(child)
}

/// Adds the pages that the items of a page name.
pub fn push_children(page: u64, slots: &SlotPage, to: &mut Vec<u64>) -> Result<(), PageError>
    ensures ok { OnOk result ((items : List (List ℕ × ℕ)) → slots.now.items ≡ map link items → AllByRecursion (λ item. item.1 < 2 ^ 64) items
        → to.new.items ≡ to.old.items ++ map (λ item. item.1) items) }
    ensures cause { IfErr result (IsBrokenOr page ((items : List (List ℕ × ℕ)) → slots.now.items ≡ map link items → AllByRecursion (λ item. item.1 < 2 ^ 64) items → ⊥)) }
{
    for slot in 0..slots.count() {
        let Some(child) = child_at(slots, slot) else {
            return Err(PageError::Broken {
                page,
                expected: 1,
                found: 0,
            });
        };
        let Ok(()) = to.push(child) else {
            return Err(PageError::Memory);
        };
    }
    Ok(())
}
