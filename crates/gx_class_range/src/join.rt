//! Keys of one range and unions of keys.

ghost use Rattle.std.specs.Prelude.{◌≡◌, ◌↔◌, IsTrue};
ghost use Rattle.gx_class_range.specs.Keys.{low_at, high_at, leaf_key, lower_of, upper_of, hull, joined};

use crate::{Bounds, RangeKey};
use gx_range::Range;

/// Beyond all numbers of 64 bits.
const BEYOND: i128 = 1 << 64;

/// Where a span with this lower bound begins.
pub fn low_at(bound: Option<i64>) -> i128
    ensures { result ≡ low_at bound }
{
    match bound {
        None => -BEYOND,
        Some(number) => i128::from(number),
    }
}

/// Where a span with this upper bound ends.
pub fn high_at(bound: Option<i64>) -> i128
    ensures { result ≡ high_at bound }
{
    match bound {
        None => BEYOND,
        Some(number) => i128::from(number),
    }
}

/// The key of one range.
pub fn leaf_of(range: Range) -> RangeKey
    ensures { result ≡ leaf_key range }
{
    match range {
        Range::Empty => RangeKey {
            empty: true,
            span: None,
        },
        Range::Span { lower, upper } => RangeKey {
            empty: false,
            span: Some(Bounds { lower, upper }),
        },
    }
}

/// The key of all that both keys stand for.
pub fn union_of(a: RangeKey, b: RangeKey) -> RangeKey
    ensures { result ≡ joined a b }
{
    RangeKey {
        empty: a.empty || b.empty,
        span: hull(a.span, b.span),
    }
}

/// The least span over both.
pub fn hull(a: Option<Bounds>, b: Option<Bounds>) -> Option<Bounds>
    ensures { result ≡ hull a b }
{
    match (a, b) {
        (None, other) => other,
        (Some(span), None) => Some(span),
        (Some(s), Some(t)) => Some(Bounds {
            lower: lower_of(s.lower, t.lower),
            upper: upper_of(s.upper, t.upper),
        }),
    }
}

fn lower_of(a: Option<i64>, b: Option<i64>) -> Option<i64>
    ensures { result ≡ lower_of a b }
{
    if low_at(a) <= low_at(b) { a } else { b }
}

fn upper_of(a: Option<i64>, b: Option<i64>) -> Option<i64>
    ensures { result ≡ upper_of a b }
{
    if high_at(b) <= high_at(a) { a } else { b }
}

/// Tells whether the keys are equal.
pub fn same_keys(a: RangeKey, b: RangeKey) -> bool
    ensures { IsTrue result ↔ (a ≡ b) }
{
    a.empty == b.empty && same_spans(a.span, b.span)
}

fn same_spans(a: Option<Bounds>, b: Option<Bounds>) -> bool
    ensures { IsTrue result ↔ (a ≡ b) }
{
    match (a, b) {
        (None, None) => true,
        (Some(s), Some(t)) => s.lower == t.lower && s.upper == t.upper,
        _ => false,
    }
}
