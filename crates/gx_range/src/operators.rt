//! The operators on ranges.

ghost use Rattle.std.specs.Prelude.{◌≡◌, ◌↔◌, IsTrue};
ghost use Rattle.gx_range.specs.Operators.{IsAtMost, IsBefore, lower_place, upper_place, EndsBy, EndsAt, HoldsOfSpans, Holds, HasElement};
ghost use Rattle.gx_range.specs.Decisions.{holds, has_element};

use crate::{Range, RangeOp};

/// Whether the operator holds of the two ranges.
pub fn range_holds(op: RangeOp, a: &Range, b: &Range) -> bool
    ensures relation { IsTrue result ↔ Holds op a.now b.now }
    ensures decision { result ≡ holds op a.now b.now }
{
    holds_of(op, *a, *b)
}

fn holds_of(op: RangeOp, a: Range, b: Range) -> bool
    ensures { IsTrue result ↔ Holds op a b }
{
    match (a, b) {
        (Range::Span { lower: l, upper: u }, Range::Span { lower: m, upper: v }) => holds_of_spans(
            op, l, u, m, v,
        ),
        (Range::Empty, Range::Empty) => {
            matches!(op, RangeOp::Equal | RangeOp::Contains | RangeOp::Within)
        }
        (Range::Span { .. }, Range::Empty) => matches!(op, RangeOp::Contains),
        (Range::Empty, Range::Span { .. }) => matches!(op, RangeOp::Within),
    }
}

fn holds_of_spans(
    op: RangeOp,
    l: Option<i64>,
    u: Option<i64>,
    m: Option<i64>,
    v: Option<i64>,
) -> bool
    ensures { IsTrue result ↔ HoldsOfSpans op l u m v }
{
    match op {
        RangeOp::Equal => l == m && u == v,
        RangeOp::Overlaps => begins_before(l, u)
            && begins_before(l, v)
            && begins_before(m, u)
            && begins_before(m, v),
        RangeOp::Contains => lower_at_most(l, m) && upper_at_most(v, u),
        RangeOp::Within => lower_at_most(m, l) && upper_at_most(u, v),
        RangeOp::Left => ends_by(u, m),
        RangeOp::Right => ends_by(v, l),
        RangeOp::NotRight => upper_at_most(u, v),
        RangeOp::NotLeft => lower_at_most(m, l),
        RangeOp::Adjacent => ends_at(u, m) || ends_at(v, l),
    }
}

impl Range {
    /// Whether the element lies from the lower bound up to the upper, which is left out.
    pub fn has_element(&self, value: i64) -> bool
        ensures relation { IsTrue result ↔ HasElement self.now value }
        ensures decision { result ≡ has_element self.now value }
    {
        has_element(*self, value)
    }
}

fn has_element(range: Range, value: i64) -> bool
    ensures { IsTrue result ↔ HasElement range value }
{
    match range {
        Range::Empty => false,
        Range::Span { lower, upper } => {
            lower_at_most(lower, Some(value)) && begins_before(Some(value), upper)
        }
    }
}

fn lower_at_most(a: Option<i64>, b: Option<i64>) -> bool
    ensures { IsTrue result ↔ IsAtMost (lower_place a) (lower_place b) }
{
    match (a, b) {
        (None, _) => true,
        (Some(_), None) => false,
        (Some(m), Some(n)) => m <= n,
    }
}

fn upper_at_most(a: Option<i64>, b: Option<i64>) -> bool
    ensures { IsTrue result ↔ IsAtMost (upper_place a) (upper_place b) }
{
    match (a, b) {
        (_, None) => true,
        (None, Some(_)) => false,
        (Some(m), Some(n)) => m <= n,
    }
}

fn begins_before(lower: Option<i64>, upper: Option<i64>) -> bool
    ensures { IsTrue result ↔ IsBefore (lower_place lower) (upper_place upper) }
{
    match (lower, upper) {
        (Some(m), Some(n)) => m < n,
        _ => true,
    }
}

fn ends_by(upper: Option<i64>, lower: Option<i64>) -> bool
    ensures { IsTrue result ↔ EndsBy upper lower }
{
    match (upper, lower) {
        (Some(m), Some(n)) => m <= n,
        _ => false,
    }
}

fn ends_at(upper: Option<i64>, lower: Option<i64>) -> bool
    ensures { IsTrue result ↔ EndsAt upper lower }
{
    match (upper, lower) {
        (Some(m), Some(n)) => m == n,
        _ => false,
    }
}
