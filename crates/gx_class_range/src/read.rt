//! Keys from bytes.

ghost use Rattle.std.specs.Prelude.{◌≡◌, ◌++◌, ◌∷◌, [], ℕ, Bool, List, ℤ, Option, Some, None, true, length, is_some, IfSome, MatchOption};
ghost use Rattle.gx_range.specs.declared.range.RangeKind.TheVariants as kinds;
ghost use Rattle.gx_range.specs.Values.{fits, rises};
ghost use Rattle.gx_range.specs.Encodings.{bound_bytes, AreBounds};
ghost use Rattle.gx_class_range.specs.Keys.{span_flags};
ghost use Rattle.gx_class_range.specs.Spellings.{ReadsTo};

use crate::{Bounds, RangeKey};

/// The key with these bytes.
pub fn key_from(bytes: &[u8]) -> Option<RangeKey>
    ensures { ReadsTo bytes.now result }
{
    match bytes {
        [1] => Some(RangeKey {
            empty: true,
            span: None,
        }),
        [flags, rest @ ..] => spanned_from(*flags, rest),
        [] => None,
    }
}

/// The key with a span that has this first byte and these behind it.
fn spanned_from(flags: u8, rest: &[u8]) -> Option<RangeKey>
    requires { (flags ≡ 1 → rest.now ≡ [] → ⊥) }
    ensures { ReadsTo (flags ∷ rest.now) result }
{
    let Some((empty, lower, upper)) = flags_from(flags) else {
        return None;
    };
    let Some(span) = bounds_from(rest, lower, upper) else {
        return None;
    };
    if rise(span) {
        Some(RangeKey {
            empty,
            span: Some(span),
        })
    } else {
        None
    }
}

/// What the first byte says of the empty range and of both bounds, where a span is there.
fn flags_from(byte: u8) -> Option<(bool, bool, bool)>
    ensures { MatchOption result ((empty lower upper : Bool) → byte ≡ span_flags empty lower upper → ⊥) (λ p. byte ≡ span_flags p.0 p.1 p.2) }
{
    match byte {
        2 => Some((false, false, false)),
        3 => Some((true, false, false)),
        6 => Some((false, true, false)),
        7 => Some((true, true, false)),
        10 => Some((false, false, true)),
        11 => Some((true, false, true)),
        14 => Some((false, true, true)),
        15 => Some((true, true, true)),
        _ => None,
    }
}

fn rise(span: Bounds) -> bool
    ensures { result ≡ rises span.lower span.upper }
{
    match (span.lower, span.upper) {
        (Some(l), Some(u)) => l < u,
        _ => true,
    }
}

/// The two bounds that are said to be there, and nothing behind them.
fn bounds_from(bytes: &[u8], lower: bool, upper: bool) -> Option<Bounds>
    ensures { MatchOption result ((l u : Option ℤ) → is_some l ≡ lower → is_some u ≡ upper → fits kinds.Int8 l ≡ true → bytes.now ≡ bound_bytes l ++ bound_bytes u → ⊥) (λ s. AreBounds bytes.now lower upper s.lower s.upper) }
{
    let Some((l, behind)) = take_bound(bytes, lower) else {
        return None;
    };
    let Some((u, rest)) = take_bound(behind, upper) else {
        return None;
    };
    if rest.is_empty() {
        Some(Bounds { lower: l, upper: u })
    } else {
        None
    }
}

/// A bound at the front, if one is there, and the bytes behind it.
fn take_bound(bytes: &[u8], there: bool) -> Option<(Option<i64>, &[u8])>
    ensures parts { MatchOption result ((b : Option ℤ) (rest : List ℕ) → is_some b ≡ there → bytes.now ≡ bound_bytes b ++ rest → ⊥) (λ x. (is_some x.0 ≡ there) × (bytes.now ≡ bound_bytes x.0 ++ x.1.now)) }
    ensures wide { IfSome result (λ x. fits kinds.Int8 x.0 ≡ true) }
{
    if !there {
        return Some((None, bytes));
    }
    if bytes.len() < 8 {
        return None;
    }
    let (front, rest) = bytes.split_at(8);
    Some((Some(number_from(front)), rest))
}

fn number_from(bytes: &[u8]) -> i64
    requires { length bytes.now ≡ 8 }
    ensures value { bytes.now ≡ bound_bytes (Some result) }
    ensures wide { fits kinds.Int8 (Some result) ≡ true }
{
    i64::from_le_bytes([
        bytes[0], bytes[1], bytes[2], bytes[3], bytes[4], bytes[5], bytes[6], bytes[7],
    ])
}
