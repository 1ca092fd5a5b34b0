//! An item of a heap: a row's number in eight bytes, and the row.

ghost use Rattle.std.specs.Prelude.{◌≡◌, ◌≢◌, ℕ, ◌+◌, ◌<◌, ◌≤◌, ◌^◌, ◌++◌, length, take, drop, Some, IfOk, IfErr, IfSome, IfNone, OnOk};
ghost use Rattle.gx_bytes.specs.Fields.{le64, of64};

use gx_bytes::{Bytes, get_u64};
use gx_pages::PageError;
use std::alloc::Global;

/// The kind of a heap page.
pub const HEAP: u8 = 2;

/// The item of a row with this number.
pub fn item_of(alloc: Global, number: u64, row: &[u8]) -> Result<Bytes, PageError>
    ensures ok { IfOk result (λ item. item ≡ le64 number ++ row.now) }
    ensures err { IfErr result (λ error. error ≡ PageError.Memory) }
{
    let mut item = Bytes::new(alloc);
    let Ok(()) = push_number(&mut item, number) else {
        return Err(PageError::Memory);
    };
    let Ok(()) = item.extend_from_slice(row) else {
        return Err(PageError::Memory);
    };
    Ok(item)
}

/// The number and the row of an item. None where it is shorter than a number.
pub fn parts_of(item: &[u8]) -> Option<(u64, &[u8])>
    ensures some { IfSome result (λ parts. (parts.0 ≡ of64 (take 8 item.now)) × (parts.1.now ≡ drop 8 item.now)) }
    ensures long { IfSome result (λ parts. 8 ≤ length item.now) }
    ensures none { IfNone result (length item.now < 8) }
{
    let number = number_of(item)?;
    let (_, row) = item.split_at_checked(8)?;
    Some((number, row))
}

// The number in the first eight bytes.
fn number_of(item: &[u8]) -> Option<u64>
    ensures some { IfSome result (λ number. number ≡ of64 (take 8 item.now)) }
    ensures long { IfSome result (λ number. 8 ≤ length item.now) }
    ensures none { IfNone result (length item.now < 8) }
{
    let number = get_u64(item, 0)?;
    Some(number)
}

#[tactic(auto, unfolding(gx_bytes::specs::Fields::le64))]
fn push_number(item: &mut Bytes, number: u64) -> Result<(), gx_bytes::NoMemory>
    ensures { OnOk result (item.new ≡ item.old ++ le64 number) }
{
    item.extend_from_slice(&number.to_le_bytes())
}
