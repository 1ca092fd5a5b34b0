//! A page of level 0 without one of its entries.

ghost use Rattle.std.specs.Prelude.{◌≡◌, ℕ, ◌+◌, ◌<◌, ◌≤◌, List, ◌∷◌, ◌++◌, length, map, take, drop, Some, IfOk, IfErr, OnOk};
ghost use Rattle.gx_slot.specs.Slots.{taken};
ghost use Rattle.gx_tree.specs.Paging.{weight};
ghost use Rattle.gx_tree.specs.Trees.{IsBrokenOr, slots as page_slots};
ghost use Rattle.gx_gin_entry.specs.EntryTrees.{AreListed, Entry, entry_bytes};

use crate::places::broken;
use gx_pages::PageError;
use gx_slot::SlotPage;

/// Adds the items of a page from one slot on up to another.
fn push_slots(
    page: u64,
    slots: &SlotPage,
    from: u16,
    end: u16,
    to: &mut SlotPage,
) -> Result<(), PageError>
    ensures ok { OnOk result ((items : List (List ℕ)) → slots.now.items ≡ map (λ item. Some item) items → from ≤ end → end ≤ length items
        → to.new ≡ record to.old { items = to.old.items ++ map (λ item. Some item) (drop from (take end items)) }) }
    ensures cause { IfErr result (IsBrokenOr page ((items : List (List ℕ)) → slots.now.items ≡ map (λ item. Some item) items → from ≤ end → end ≤ length items
        → taken to.old.items + weight (drop from (take end items)) ≤ 8176 → ⊥)) }
{
    for slot in from..end {
        let Some(item) = slots.item(slot) else {
            return Err(broken(page));
        };
        match to.add(item) {
            Ok(_) => (),
            Err(_) => return Err(broken(page)),
        }
    }
    Ok(())
}

/// A page without the entry in a slot.
pub fn without(page: u64, kind: u8, slots: &SlotPage, slot: u16) -> Result<SlotPage, PageError>
    requires { slot < 65535 }
    ensures made { IfOk result (λ made. (list front back : List Entry) (entry : Entry) → AreListed slots.now.items list → list ≡ front ++ entry ∷ back → slot ≡ length front
        → made ≡ page_slots kind 0 (map (λ item. Some item) (map entry_bytes (front ++ back)))) }
    ensures cause { IfErr result (IsBrokenOr page ((list front back : List Entry) (entry : Entry) → AreListed slots.now.items list → list ≡ front ++ entry ∷ back → slot ≡ length front → ⊥)) }
{
    let _free = slots.free();
    let mut made = SlotPage::new(kind, 0);
    push_slots(page, slots, 0, slot, &mut made)?;
    push_slots(page, slots, slot + 1, slots.count(), &mut made)?;
    Ok(made)
}
