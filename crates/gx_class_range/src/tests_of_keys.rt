//! The tests of keys.

ghost use Rattle.std.specs.Prelude.{◌≡◌};
ghost use Rattle.gx_class_range.specs.Tests.{range_of, leaf_answer, contains, overlaps, reaches_lower, reaches_upper, span_may, some_may, flag_may, empty_may, key_may, has, query_may, inner_answer};

use crate::join::{high_at, low_at};
use crate::{Bounds, RangeKey, RangeQuery};
use gx_gist::Test;
use gx_range::{Range, RangeOp, range_holds};

/// The test of the key of one range.
pub fn test_leaf(key: RangeKey, query: RangeQuery) -> Test
    ensures { result ≡ leaf_answer key query }
{
    let range = range_of(key.span);
    let holds = match query {
        RangeQuery::Range { op, operand } => range_holds(op, &range, &operand),
        RangeQuery::Element(value) => range.has_element(value),
    };
    if holds { Test::Yes } else { Test::No }
}

fn range_of(span: Option<Bounds>) -> Range
    ensures { result ≡ range_of span }
{
    match span {
        None => Range::Empty,
        Some(Bounds { lower, upper }) => Range::Span { lower, upper },
    }
}

/// The test of the key of many ranges.
pub fn test_inner(key: RangeKey, query: RangeQuery) -> Test
    ensures { result ≡ inner_answer key query }
{
    if query_may(key, query) {
        Test::Maybe
    } else {
        Test::No
    }
}

fn query_may(key: RangeKey, query: RangeQuery) -> bool
    ensures { result ≡ query_may key query }
{
    match query {
        RangeQuery::Range { op, operand } => key_may(op, key, operand),
        RangeQuery::Element(value) => has(key.span, value),
    }
}

fn key_may(op: RangeOp, key: RangeKey, operand: Range) -> bool
    ensures { result ≡ key_may op key operand }
{
    match operand {
        Range::Empty => empty_may(op, key.empty),
        Range::Span { lower, upper } => {
            flag_may(op, key.empty) || some_may(op, key.span, lower, upper)
        }
    }
}

fn empty_may(op: RangeOp, empty: bool) -> bool
    ensures { result ≡ empty_may op empty }
{
    match op {
        RangeOp::Equal => empty,
        RangeOp::Contains => true,
        RangeOp::Within => empty,
        _ => false,
    }
}

fn flag_may(op: RangeOp, empty: bool) -> bool
    ensures { result ≡ flag_may op empty }
{
    match op {
        RangeOp::Within => empty,
        _ => false,
    }
}

fn has(span: Option<Bounds>, value: i64) -> bool
    ensures { result ≡ has span value }
{
    match span {
        None => false,
        Some(s) => {
            let value = i128::from(value);
            low_at(s.lower) <= value && value < high_at(s.upper)
        }
    }
}

fn some_may(op: RangeOp, span: Option<Bounds>, lower: Option<i64>, upper: Option<i64>) -> bool
    ensures { result ≡ some_may op span lower upper }
{
    match span {
        None => false,
        Some(s) => span_may(op, s, lower, upper),
    }
}

fn span_may(op: RangeOp, s: Bounds, lower: Option<i64>, upper: Option<i64>) -> bool
    ensures { result ≡ span_may op s lower upper }
{
    match op {
        RangeOp::Equal => contains(s, lower, upper),
        RangeOp::Overlaps => overlaps(s, lower, upper),
        RangeOp::Contains => contains(s, lower, upper),
        RangeOp::Within => overlaps(s, lower, upper),
        RangeOp::Left => low_at(s.lower) < low_at(lower),
        RangeOp::Right => high_at(upper) < high_at(s.upper),
        RangeOp::NotRight => low_at(s.lower) < high_at(upper),
        RangeOp::NotLeft => low_at(lower) < high_at(s.upper),
        RangeOp::Adjacent => reaches_lower(s, lower) || reaches_upper(s, upper),
    }
}

fn contains(s: Bounds, lower: Option<i64>, upper: Option<i64>) -> bool
    ensures { result ≡ contains s lower upper }
{
    low_at(s.lower) <= low_at(lower) && high_at(upper) <= high_at(s.upper)
}

fn overlaps(s: Bounds, lower: Option<i64>, upper: Option<i64>) -> bool
    ensures { result ≡ overlaps s lower upper }
{
    low_at(s.lower) < high_at(upper) && low_at(lower) < high_at(s.upper)
}

fn reaches_lower(s: Bounds, lower: Option<i64>) -> bool
    ensures { result ≡ reaches_lower s lower }
{
    lower.is_some() && low_at(s.lower) < low_at(lower) && low_at(lower) <= high_at(s.upper)
}

fn reaches_upper(s: Bounds, upper: Option<i64>) -> bool
    ensures { result ≡ reaches_upper s upper }
{
    upper.is_some() && low_at(s.lower) <= high_at(upper) && high_at(upper) < high_at(s.upper)
}
