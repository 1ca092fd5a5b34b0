//! Keys of cut values from bytes.

ghost use Rattle.std.specs.Prelude.{◌≡◌, ◌≢◌, ◌⊎◌, ℕ, ◌≤◌, ◌++◌, ◌∷◌, List, Bool, Some, None, length, IfOk, MatchOption};
ghost use Rattle.gx_scalar.specs.declared.scalar.ScalarKind.TheVariants as kinds;
ghost use Rattle.gx_class_scalar.specs.declared.key.Part.{Part};
ghost use Rattle.gx_class_scalar.specs.declared.key.ScalarKey.TheVariants.{Cut};
ghost use Rattle.gx_class_scalar.specs.Keys.{IsPart, size_bytes, flag_of, part_bytes};
ghost use Rattle.gx_class_scalar.specs.Readings.{ReadsTo, part_with};

use crate::{Part, ScalarKey};
use gx_bytes::{Bytes, NoMemory};
use gx_scalar::ScalarKind;
use std::alloc::Global;

/// Both cut values of a key, as they stand in its bytes.
#[derive(Clone, Copy, Drop)]
pub struct Cuts<'a> {
    pub low: &'a [u8],
    pub low_more: bool,
    pub high: &'a [u8],
    pub high_more: bool,
}

/// The key of a text or a byte string with these bytes.
pub fn cut_from(
    alloc: Global,
    kind: ScalarKind,
    bytes: &[u8],
) -> Result<Option<ScalarKey>, NoMemory>
    requires { (kind ≡ kinds.Text) ⊎ (kind ≡ kinds.Bytea) }
    ensures { IfOk result (ReadsTo kind bytes.now) }
{
    let Some(cuts) = cuts_from(kind, bytes) else {
        return Ok(None);
    };
    let lo = Part {
        bytes: Bytes::from_slice(alloc, cuts.low)?,
        more: cuts.low_more,
    };
    let hi = Part {
        bytes: Bytes::from_slice(alloc, cuts.high)?,
        more: cuts.high_more,
    };
    Ok(Some(ScalarKey::Cut { lo, hi }))
}

/// Its cut values, where the bytes are those of a key of this type.
pub fn cuts_from(kind: ScalarKind, bytes: &[u8]) -> Option<Cuts<'_>>
    requires { (kind ≡ kinds.Text) ⊎ (kind ≡ kinds.Bytea) }
    ensures { MatchOption result (ReadsTo kind bytes.now None) (λ cuts. ReadsTo kind bytes.now (Some (Cut (part_with cuts.low.now cuts.low_more) (part_with cuts.high.now cuts.high_more)))) }
{
    let _ = kind;
    let Some((low, low_more, behind)) = part_from(bytes) else {
        return None;
    };
    let Some((high, high_more, rest)) = part_from(behind) else {
        return None;
    };
    if !rest.is_empty() {
        return None;
    }
    if low.cmp(high).then(low_more.cmp(&high_more)).is_gt() {
        return None;
    }
    Some(Cuts {
        low,
        low_more,
        high,
        high_more,
    })
}

/// A cut value at the front of the bytes, and what follows.
fn part_from(bytes: &[u8]) -> Option<(&[u8], bool, &[u8])>
    ensures { MatchOption result ((p : Part) (rest : List ℕ) → IsPart p → bytes.now ≡ part_bytes p ++ rest → ⊥) (λ x. IsPart (part_with x.0.now x.1) × (bytes.now ≡ part_bytes (part_with x.0.now x.1) ++ x.2.now)) }
{
    let Some((size, behind)) = size_from(bytes) else {
        return None;
    };
    if behind.len() < size {
        return None;
    }
    let (front, rest) = behind.split_at(size);
    match flag_from(rest) {
        Some((more, rest)) => {
            if more && size != 900 {
                None
            } else {
                Some((front, more, rest))
            }
        }
        None => None,
    }
}

fn size_from(bytes: &[u8]) -> Option<(usize, &[u8])>
    ensures { MatchOption result ((n : ℕ) (rest : List ℕ) → n ≤ 900 → bytes.now ≡ size_bytes n ++ rest → ⊥) (λ x. (x.0 ≤ 900) × (bytes.now ≡ size_bytes x.0 ++ x.1.now)) }
{
    match bytes {
        [first, rest @ ..] if *first < 128 => Some((*first as usize, rest)),
        [first, next, rest @ ..] => {
            let size = *first as usize - 128 + 128 * *next as usize;
            if *next > 0 && size <= 900 {
                Some((size, rest))
            } else {
                None
            }
        }
        _ => None,
    }
}

fn flag_from(bytes: &[u8]) -> Option<(bool, &[u8])>
    ensures { MatchOption result ((more : Bool) (rest : List ℕ) → bytes.now ≡ flag_of more ∷ rest → ⊥) (λ x. bytes.now ≡ flag_of x.0 ∷ x.1.now) }
{
    match bytes {
        [0, rest @ ..] => Some((false, rest)),
        [1, rest @ ..] => Some((true, rest)),
        _ => None,
    }
}
