//! Ranges as bytes.

ghost use Rattle.std.specs.Prelude.{◌≡◌, ◌++◌, ℕ, Bool, List, ℤ, Option, true, ◌&&◌, length, is_some, IfSome, OnOk, MatchOption, MatchResult};
ghost use Rattle.gx_range.specs.declared.range.Range.{Range};
ghost use Rattle.gx_range.specs.declared.range.RangeKind.{RangeKind};
ghost use Rattle.gx_range.specs.declared.range.RangeKind.TheVariants as kinds;
ghost use Rattle.gx_range.specs.Values.{IsRange, fits, rises};
ghost use Rattle.gx_range.specs.declared.range.Range.TheVariants.{Span};
ghost use Rattle.gx_range.specs.Encodings.{flags, bound_bytes, AreBounds, encoded, DecodesTo};

use crate::steps::{is_bound, wide};
use crate::{Range, RangeKind};
use gx_bytes::{Bytes, NoMemory};
use std::alloc::Global;

impl Range {
    /// Appends the bytes.
    pub fn encode(&self, to: &mut Bytes) -> Result<(), NoMemory>
        requires { IsRange kinds.Int8 self.now }
        ensures { OnOk result (to.new ≡ to.old ++ encoded self.now) }
    {
        match *self {
            Range::Empty => to.push(1),
            Range::Span { lower, upper } => {
                to.push(flags_of(lower.is_some(), upper.is_some()))?;
                push_bound(lower, to)?;
                push_bound(upper, to)
            }
        }
    }

    /// The valid range of that type with these bytes. No memory is taken, so it is never refused.
    pub fn decode(_alloc: Global, kind: RangeKind, bytes: &[u8]) -> Result<Option<Range>, NoMemory>
        ensures { MatchResult result (DecodesTo kind bytes.now) (λ _. ⊥) }
    {
        Ok(decoded(kind, bytes))
    }
}

fn flags_of(lower: bool, upper: bool) -> u8
    ensures { result ≡ flags lower upper }
{
    (if lower { 2 } else { 0 }) + (if upper { 4 } else { 0 })
}

fn push_bound(bound: Option<i64>, to: &mut Bytes) -> Result<(), NoMemory>
    ensures { OnOk result (to.new ≡ to.old ++ bound_bytes bound) }
{
    match bound {
        Some(number) => to.extend_from_slice(&number.to_le_bytes()),
        None => Ok(()),
    }
}

/// The valid range of that type with these bytes.
fn decoded(kind: RangeKind, bytes: &[u8]) -> Option<Range>
    ensures { DecodesTo kind bytes.now result }
{
    if bytes == [1].as_slice() {
        return Some(Range::Empty);
    }
    match bounds_from(bytes) {
        Some((lower, upper)) => {
            if is_span(kind, lower, upper) {
                Some(Range::Span { lower, upper })
            } else {
                None
            }
        }
        None => None,
    }
}

fn is_span(kind: RangeKind, lower: Option<i64>, upper: Option<i64>) -> bool
    ensures { result ≡ (fits kind lower && (fits kind upper && rises lower upper)) }
{
    is_bound(kind, wide(lower)) && is_bound(kind, wide(upper)) && rise(lower, upper)
}

fn rise(lower: Option<i64>, upper: Option<i64>) -> bool
    ensures { result ≡ rises lower upper }
{
    match (lower, upper) {
        (Some(l), Some(u)) => l < u,
        _ => true,
    }
}

/// The two bounds of the span with these bytes.
fn bounds_from(bytes: &[u8]) -> Option<(Option<i64>, Option<i64>)>
    ensures { MatchOption result ((l u : Option ℤ) → fits kinds.Int8 l ≡ true → fits kinds.Int8 u ≡ true → bytes.now ≡ encoded (Span l u) → ⊥) (λ p. (fits kinds.Int8 p.0 ≡ true) × (fits kinds.Int8 p.1 ≡ true) × (bytes.now ≡ encoded (Span p.0 p.1))) }
{
    match bytes {
        [flags, rest @ ..] => match there(*flags) {
            Some((lower, upper)) => both_from(rest, lower, upper),
            None => None,
        },
        [] => None,
    }
}

/// Whether the flags say that there is a lower and an upper bound.
fn there(byte: u8) -> Option<(bool, bool)>
    ensures { MatchOption result ((lower upper : Bool) → byte ≡ flags lower upper → ⊥) (λ p. byte ≡ flags p.0 p.1) }
{
    match byte {
        0 => Some((false, false)),
        2 => Some((true, false)),
        4 => Some((false, true)),
        6 => Some((true, true)),
        _ => None,
    }
}

/// The two bounds that are said to be there, and nothing behind them.
fn both_from(bytes: &[u8], lower: bool, upper: bool) -> Option<(Option<i64>, Option<i64>)>
    ensures { MatchOption result ((l u : Option ℤ) → is_some l ≡ lower → is_some u ≡ upper → fits kinds.Int8 l ≡ true → bytes.now ≡ bound_bytes l ++ bound_bytes u → ⊥) (λ p. AreBounds bytes.now lower upper p.0 p.1) }
{
    let Some((l, behind)) = take_bound(bytes, lower) else {
        return None;
    };
    let Some((u, rest)) = take_bound(behind, upper) else {
        return None;
    };
    if rest.is_empty() { Some((l, u)) } else { None }
}

/// A bound at the front, if one is there, and the bytes behind it.
fn take_bound(bytes: &[u8], there: bool) -> Option<(Option<i64>, &[u8])>
    ensures parts { MatchOption result ((b : Option ℤ) (rest : List ℕ) → is_some b ≡ there → bytes.now ≡ bound_bytes b ++ rest → ⊥) (λ x. (is_some x.0 ≡ there) × (bytes.now ≡ bound_bytes x.0 ++ x.1.now)) }
    ensures wide { IfSome result (λ x. fits kinds.Int8 x.0 ≡ true) }
{
    if !there {
        return Some((None, bytes));
    }
    if bytes.len() < 8 {
        return None;
    }
    let (front, rest) = bytes.split_at(8);
    Some((Some(number_from(front)), rest))
}

fn number_from(bytes: &[u8]) -> i64
    requires { length bytes.now ≡ 8 }
    ensures value { bytes.now ≡ bound_bytes (Some result) }
    ensures wide { fits kinds.Int8 (Some result) ≡ true }
{
    i64::from_le_bytes([
        bytes[0], bytes[1], bytes[2], bytes[3], bytes[4], bytes[5], bytes[6], bytes[7],
    ])
}
