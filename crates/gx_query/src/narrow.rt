//! The bytes of a row with only some of its fields.

ghost use Rattle.std.specs.Prelude.{◌≡◌, ℕ, true, List, ◌++◌, Option, length, IfOk, OnOk, MatchOption, if◌then◌else◌, [], ◌∷◌};
ghost use Rattle.gx_value.specs.Rows.{IsFieldBytes, IsRowBytes};
ghost use Rattle.gx_value.specs.Values.{Datum};
ghost use Rattle.gx_query.specs.Wanted.{narrowed};

use gx_bytes::{Bytes, NoMemory, behind_byte, field};

/// Appends the bytes of a row in which the fields that aren't wanted are NULL. False where no row with so many fields has these bytes.
pub fn narrow(wanted: &[bool], bytes: &[u8], to: &mut Bytes) -> Result<bool, NoMemory>
    ensures { IfOk result (λ so. (row : List (Option Datum)) → IsRowBytes bytes.now row → length row ≡ length wanted.now
        → (so ≡ true) × ((added : List ℕ) × (to.new ≡ to.old ++ added) × IsRowBytes added (narrowed wanted.now row))) }
{
    let Some((want, more)) = wanted.split_first() else {
        return Ok(true);
    };
    let Some((front, rest)) = take_field(bytes) else {
        return Ok(false);
    };
    push_wanted(*want, front, to)?;
    narrow(more, rest, to)
}

/// Appends the bytes of a field where it is wanted, and else those of NULL.
fn push_wanted(want: bool, front: &[u8], to: &mut Bytes) -> Result<(), NoMemory>
    ensures { OnOk result (to.new ≡ to.old ++ (if want then front.now else (0 ∷ []))) }
{
    if want {
        to.extend_from_slice(front)
    } else {
        to.push(0)
    }
}

/// The bytes of the field at the front, and those behind it.
fn take_field(bytes: &[u8]) -> Option<(&[u8], &[u8])>
    ensures { MatchOption result ((v : Option Datum) (front rest : List ℕ) → IsFieldBytes front v → bytes.now ≡ front ++ rest → ⊥)
        (λ x. (v : Option Datum) (front rest : List ℕ) → IsFieldBytes front v → bytes.now ≡ front ++ rest → (x.0.now ≡ front) × (x.1.now ≡ rest)) }
{
    if let Some(_rest) = behind_byte(bytes, 0) {
        return Some(bytes.split_at(1));
    }
    let Some(more) = behind_byte(bytes, 1) else {
        return None;
    };
    let Some((_part, length)) = field(more) else {
        return None;
    };
    Some(bytes.split_at(1 + length))
}
