//! The rows that bytes spell.

ghost use Rattle.std.specs.Prelude.{◌≡◌, ◌≢◌, ◌↔◌, ℕ, ◌<◌, ◌≤◌, ◌^◌, List, [], ◌++◌, Bool, true, false, Some, IsTrue, IfOk, IfSome, IfNone, OnErr, MatchOption};
ghost use Rattle.gx_bytes.specs.Varints.{varint_bytes};
ghost use Rattle.gx_pages.specs.declared.row.RowRef.{RowRef};
ghost use Rattle.gx_pages.specs.Rows.{IsRising};
ghost use Rattle.gx_posting.specs.Postings.{Fits, Spells, entry_bytes, last_of};

use gx_bytes::{NoMemory, varint};
use gx_pages::{Bitmap, RowRef};

/// Adds the rows that the bytes spell behind those of `to`. False where the bytes spell no posting list, or one that doesn't
/// begin above the last row of `to`; then, and without memory, `to` stays as it was.
pub fn read_posting(bytes: &[u8], to: &mut Bitmap) -> Result<bool, NoMemory>
    ensures read { IfOk result (λ done. done ≡ true → (rows : List RowRef) × Spells bytes.now rows × (to.new ≡ to.old ++ rows)) }
    ensures refused { IfOk result (λ done. done ≡ false → (rows : List RowRef) → Spells bytes.now rows → IsRising (to.old ++ rows) → ⊥) }
    ensures same { IfOk result (λ done. done ≡ false → to.new ≡ to.old) }
    ensures err { OnErr result (to.new ≡ to.old) }
{
    let len = to.len();
    let done = push_rows(bytes, to);
    if !matches!(done, Ok(true)) {
        to.truncate(len);
    }
    done
}

/// Adds the rows that the bytes spell, or the first of them.
fn push_rows(bytes: &[u8], to: &mut Bitmap) -> Result<bool, NoMemory>
    requires { IsRising to.old }
    ensures more { (rows : List RowRef) × (to.new ≡ to.old ++ rows) }
    ensures read { IfOk result (λ done. done ≡ true → (rows : List RowRef) × Spells bytes.now rows × (to.new ≡ to.old ++ rows)) }
    ensures refused { IfOk result (λ done. done ≡ false → (rows : List RowRef) → Spells bytes.now rows → IsRising (to.old ++ rows) → ⊥) }
{
    let mut rest = bytes;
    let mut before = 0;
    'rows: while !rest.is_empty() {
        let Some((row, after)) = take_row(rest, before) else {
            return Ok(false);
        };
        if !to.is_below(row.number) {
            return Ok(false);
        }
        to.push(row)?;
        before = row.number;
        rest = after;
    }
    Ok(true)
}

/// The last row of the list that the bytes spell. None where they spell none, or the empty one. It takes no memory.
pub fn last_posting(bytes: &[u8]) -> Option<RowRef>
    ensures some { IfSome result (λ last. (rows : List RowRef) × Spells bytes.now rows × (last_of rows ≡ Some last)) }
    ensures none { IfNone result ((rows : List RowRef) → Spells bytes.now rows → rows ≡ []) }
{
    let mut rest = bytes;
    let mut before = 0;
    let mut last = None;
    'rows: while !rest.is_empty() {
        let Some((row, after)) = take_row(rest, before) else {
            return None;
        };
        if !is_behind(last, row.number) {
            return None;
        }
        last = Some(row);
        before = row.number;
        rest = after;
    }
    last
}

/// Tells whether the number is above that of the row, where there is one.
fn is_behind(last: Option<RowRef>, number: u64) -> bool
    ensures { IsTrue result ↔ IfSome last (λ before. before.number < number) }
{
    match last {
        Some(before) => before.number < number,
        None => true,
    }
}

/// The row at the front, behind one of this number, and the bytes behind it.
fn take_row(bytes: &[u8], before: u64) -> Option<(RowRef, &[u8])>
    ensures { MatchOption result ((row : RowRef) (after : List ℕ) → Fits row → before ≤ row.number → bytes.now ≢ entry_bytes before row ++ after)
        (λ found. Fits found.0 × (before ≤ found.0.number) × (bytes.now ≡ entry_bytes before found.0 ++ found.1.now)) }
{
    let Some((more, behind_number)) = take_number(bytes) else {
        return None;
    };
    let Some((page, behind_page)) = take_number(behind_number) else {
        return None;
    };
    let Some((slot, after)) = take_number(behind_page) else {
        return None;
    };
    if slot > u64::from(u16::MAX) {
        return None;
    }
    let Some(number) = before.checked_add(more) else {
        return None;
    };
    let slot = slot as u16;
    Some((RowRef { number, page, slot }, after))
}

/// The number at the front, and the bytes behind it.
fn take_number(bytes: &[u8]) -> Option<(u64, &[u8])>
    ensures { MatchOption result ((n : ℕ) (after : List ℕ) → n < 2 ^ 64 → bytes.now ≢ varint_bytes n ++ after)
        (λ found. (found.0 < 2 ^ 64) × (bytes.now ≡ varint_bytes found.0 ++ found.1.now)) }
{
    let (number, length) = varint(bytes)?;
    let (_, after) = bytes.split_at(length);
    Some((number, after))
}
