//! The rows of one page.

ghost use Rattle.std.specs.Prelude.{◌≡◌, ◌≢◌, ◌⊎◌, ℕ, ◌≤◌, ◌++◌, List, length, map, take, drop, Some, IfErr, IfSome, IfNone, OnOk};
ghost use Rattle.std.specs.List.{AllByRecursion};
ghost use Rattle.gx_bytes.specs.Fields.{of64};
ghost use Rattle.gx_slot.specs.Slots.{IsBroken, item_at};
ghost use Rattle.gx_chain.specs.Chains.{entries_at};
ghost use Rattle.gx_heap.specs.Heaps.{HasNoItem, row_of};

use crate::item::parts_of;
use gx_pages::{PageError, RowRef, Rows};
use gx_slot::SlotPage;

/// The row in a slot, if it has this number.
pub fn item_at(slots: &SlotPage, at: RowRef) -> Option<&[u8]>
    ensures some { IfSome result (λ row. (item : List ℕ) × (item_at slots.now.items at.slot ≡ Some item) × (of64 (take 8 item) ≡ at.number) × (row.now ≡ drop 8 item)) }
    ensures none { IfNone result (HasNoItem slots.now.items at) }
{
    let (number, row) = parts_of(slots.item(at.slot)?)?;
    if number == at.number { Some(row) } else { None }
}

/// The row isn't there.
pub fn no_row(at: RowRef) -> PageError
    ensures { result ≡ PageError.Broken at.page 1 0 }
{
    PageError::Broken {
        page: at.page,
        expected: 1,
        found: 0,
    }
}

/// Adds the rows of a page in order.
pub fn push_rows(page: u64, slots: &SlotPage, rows: &mut Rows) -> Result<(), PageError>
    ensures ok { OnOk result (rows.new ≡ rows.old ++ map row_of (entries_at page 0 slots.now.items)) }
    ensures cause { IfErr result (λ error. (error ≡ PageError.Memory)
        ⊎ (IsBroken page error × ((AllByRecursion (λ entry. 8 ≤ length entry.item) (entries_at page 0 slots.now.items)) → ⊥))) }
{
    for slot in 0..slots.count() {
        if let Some(item) = slots.item(slot) {
            let Some((number, row)) = parts_of(item) else {
                return Err(no_row(RowRef {
                    number: 0,
                    page,
                    slot,
                }));
            };
            let Ok(()) = rows.push(RowRef { number, page, slot }, row) else {
                return Err(PageError::Memory);
            };
        }
    }
    Ok(())
}
