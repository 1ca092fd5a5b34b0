//! A row at the end of a posting list.

ghost use Rattle.std.specs.Prelude.{◌≡◌, ℕ, ◌+◌, ◌-◌, ◌^◌, ◌<◌, ◌≤◌, List, [], ◌∷◌, ◌++◌, length, IfSome, OnOk, OnErr};
ghost use Rattle.gx_bytes.specs.Varints.{varint_bytes, Extends};
ghost use Rattle.gx_pages.specs.declared.row.RowRef.{RowRef};
ghost use Rattle.gx_posting.specs.Postings.{Spells, entry_bytes, number_of, last_of};

use gx_bytes::{Bytes, NoMemory, push_varint};
use gx_pages::RowRef;

/// Adds a row behind the last one of the list, which is `last`, or None where the list is empty: at most 30 bytes. The list may stand
/// behind other bytes. Without memory the bytes stay as they were.
pub fn push_posting(to: &mut Bytes, last: Option<RowRef>, row: RowRef) -> Result<(), NoMemory>
    requires { IfSome last (λ before. before.number < row.number) }
    ensures bytes { OnOk result (to.new ≡ to.old ++ entry_bytes (number_of last) row) }
    ensures list { OnOk result ((rows : List RowRef) → Spells to.old rows → last_of rows ≡ last → Spells to.new (rows ++ row ∷ [])) }
    ensures behind { OnOk result ((list : List ℕ) (rows : List RowRef) → Spells list rows → last_of rows ≡ last → Spells (list ++ entry_bytes (number_of last) row) (rows ++ row ∷ [])) }
    ensures few { OnOk result (length to.new ≤ length to.old + 30) }
    ensures err { OnErr result (to.new ≡ to.old) }
{
    let before = number_before(last);
    let len = to.len();
    if let Err(refused) = push_numbers(to, before, row.number, row.page, row.slot) {
        to.truncate(len);
        return Err(refused);
    }
    Ok(())
}

/// The number of the row, or 0.
fn number_before(last: Option<RowRef>) -> u64
    ensures { result ≡ number_of last }
{
    match last {
        Some(row) => row.number,
        None => 0,
    }
}

/// Adds a number less another, and two more numbers.
fn push_numbers(
    to: &mut Bytes,
    before: u64,
    number: u64,
    page: u64,
    slot: u16,
) -> Result<(), NoMemory>
    requires { before ≤ number }
    ensures ok { OnOk result (to.new ≡ to.old ++ varint_bytes (number - before) ++ varint_bytes page ++ varint_bytes slot) }
    ensures fit { (number < 2 ^ 64) × (page < 2 ^ 64) × (slot < 2 ^ 16) }
    ensures err { OnErr result (Extends to.old to.new) }
{
    push_varint(to, number - before)?;
    push_varint(to, page)?;
    push_varint(to, u64::from(slot))
}
