//! The items of a page with some of them replaced.

ghost use Rattle.std.specs.Prelude.{◌≡◌, ℕ, ◌≤◌, List, [], ◌∷◌, ◌++◌, length, map, take, drop, Some, IfOk, IfErr, OnOk};
ghost use Rattle.std.specs.Option.{option_map};
ghost use Rattle.gx_tree.specs.Paging.{listed, replaced};
ghost use Rattle.gx_tree.specs.Trees.{IsBrokenOr};

use crate::items::Items;
use gx_pages::PageError;
use gx_slot::SlotPage;
use std::alloc::Global;

/// The items of a page with one or two in place of those from `place` on up to `behind`.
pub fn gather(
    alloc: Global,
    page: u64,
    slots: &SlotPage,
    place: u16,
    behind: u16,
    one: &[u8],
    other: Option<&[u8]>,
) -> Result<Items, PageError>
    ensures items { IfOk result (λ made. (items : List (List ℕ)) → slots.now.items ≡ map (λ item. Some item) items → place ≤ behind → behind ≤ length items
        → made ≡ replaced items place behind (one.now ∷ listed (option_map (λ item. item.now) other.entry))) }
    ensures cause { IfErr result (IsBrokenOr page ((items : List (List ℕ)) → slots.now.items ≡ map (λ item. Some item) items → place ≤ behind → behind ≤ length items → ⊥)) }
{
    let mut items = Items::new(alloc);
    push_slots(page, slots, 0, place, &mut items)?;
    push_new(one, &mut items)?;
    push_other(other, &mut items)?;
    push_slots(page, slots, behind, slots.count(), &mut items)?;
    Ok(items)
}

/// Adds an item.
fn push_new(item: &[u8], items: &mut Items) -> Result<(), PageError>
    ensures ok { OnOk result (items.new ≡ items.old ++ item.now ∷ []) }
    ensures err { IfErr result (λ error. error ≡ PageError.Memory) }
{
    let Ok(()) = items.push(item) else {
        return Err(PageError::Memory);
    };
    Ok(())
}

/// Adds an item, if there is one.
fn push_other(item: Option<&[u8]>, items: &mut Items) -> Result<(), PageError>
    ensures ok { OnOk result (items.new ≡ items.old ++ listed (option_map (λ item. item.now) item.entry)) }
    ensures err { IfErr result (λ error. error ≡ PageError.Memory) }
{
    match item {
        Some(item) => push_new(item, items),
        None => Ok(()),
    }
}

/// Adds the items of a page from one slot on up to another.
fn push_slots(
    page: u64,
    slots: &SlotPage,
    from: u16,
    end: u16,
    to: &mut Items,
) -> Result<(), PageError>
    ensures ok { OnOk result ((items : List (List ℕ)) → slots.now.items ≡ map (λ item. Some item) items → from ≤ end → end ≤ length items → to.new ≡ to.old ++ drop from (take end items)) }
    ensures cause { IfErr result (IsBrokenOr page ((items : List (List ℕ)) → slots.now.items ≡ map (λ item. Some item) items → from ≤ end → end ≤ length items → ⊥)) }
{
    for slot in from..end {
        let Some(item) = slots.item(slot) else {
            return Err(PageError::Broken {
                page,
                expected: 1,
                found: 0,
            });
        };
        push_new(item, to)?;
    }
    Ok(())
}
