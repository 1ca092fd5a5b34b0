//! Bounds as text.

ghost use Rattle.std.specs.Prelude.{◌≡◌, ◌↔◌, ℕ, Bool, false, List, [], ◌∷◌, IsTrue, MatchOption, MatchResult};
ghost use Rattle.gx_range.specs.declared.range.RangeKind.TheVariants as kinds;
ghost use Rattle.gx_range.specs.Bounds.{is_stop, SplitsAtStop, IsWritten, IsBound, RefusesBound, AnswersElement};

use crate::RangeKind;
use gx_bytes::{ValueError, cut_at, day_of, whole_of};

/// The bound at the front of the bytes, and what follows it. It is judged as soon as it is read.
pub fn bound_of(kind: RangeKind, bytes: &[u8]) -> Result<(Option<i64>, &[u8]), ValueError>
    ensures { MatchResult result (λ found. IsBound kind bytes.now found.0 found.1.now) (RefusesBound kind bytes.now) }
{
    let Some((quoted, text, rest)) = written(bytes) else {
        return Err(ValueError::NoValue);
    };
    if is_nothing(quoted, text) {
        return Ok((None, rest));
    }
    match element_of(kind, text) {
        Ok(number) => Ok((Some(number), rest)),
        Err(fault) => Err(fault),
    }
}

fn is_nothing(quoted: bool, text: &[u8]) -> bool
    ensures { IsTrue result ↔ ((quoted ≡ false) × (text.now ≡ [])) }
{
    !quoted && text.is_empty()
}

/// Whether the bound is quoted, its text, and what follows.
fn written(bytes: &[u8]) -> Option<(bool, &[u8], &[u8])>
    ensures { MatchOption result ((quoted : Bool) (text rest : List ℕ) → IsWritten bytes.now quoted text rest → ⊥) (λ w. IsWritten bytes.now w.0 w.1.now w.2.now) }
{
    match behind_quote(bytes) {
        Some(inside) => match cut_at(inside, b'"') {
            Some((text, rest)) => Some((true, text, rest)),
            None => None,
        },
        None => {
            let (text, rest) = plain(bytes);
            Some((false, text, rest))
        }
    }
}

fn behind_quote(bytes: &[u8]) -> Option<&[u8]>
    ensures { MatchOption result ((rest : List ℕ) → bytes.now ≡ 34 ∷ rest → ⊥) (λ rest. bytes.now ≡ 34 ∷ rest.now) }
{
    match bytes {
        [b'"', rest @ ..] => Some(rest),
        _ => None,
    }
}

/// The bytes up to the first quote, comma or bracket, and the rest.
fn plain(bytes: &[u8]) -> (&[u8], &[u8])
    ensures { SplitsAtStop bytes.now result.0.now result.1.now }
{
    match bytes.iter().position(|byte| stops(*byte)) {
        Some(at) => (&bytes[..at], &bytes[at..]),
        None => (bytes, &bytes[bytes.len()..]),
    }
}

fn stops(byte: u8) -> bool
    ensures { result ≡ is_stop byte }
{
    matches!(byte, b'"' | b',' | b'(' | b')' | b'[' | b']')
}

/// The number or the day that the whole text spells.
fn element_of(kind: RangeKind, text: &[u8]) -> Result<i64, ValueError>
    ensures { AnswersElement kind text.now result }
{
    match kind {
        RangeKind::Int4 => whole_of(text, i64::from(i32::MIN), i64::from(i32::MAX)),
        RangeKind::Int8 => whole_of(text, i64::MIN, i64::MAX),
        RangeKind::Date => day_bound(text),
    }
}

/// The day, or the day behind the last one that `jiff` has.
fn day_bound(text: &[u8]) -> Result<i64, ValueError>
    ensures { AnswersElement kinds.Date text.now result }
{
    if text == b"10000-01-01".as_slice() {
        return Ok(2_932_897);
    }
    match day_of(text) {
        Ok(day) => Ok(i64::from(day)),
        Err(fault) => Err(fault),
    }
}
