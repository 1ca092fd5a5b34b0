//! The order of keys that a split may cut.

ghost use Rattle.std.specs.Prelude.{◌≡◌};
ghost use Rattle.gx_class_range.specs.Sorting.{begins_at, ends_at, key_cmp, key_total};

use crate::join::{high_at, low_at};
use crate::{Bounds, RangeKey};
use gx_gist::Ranked;
use std::cmp::Ordering;

impl Ranked for RangeKey {
    ghost rank_cmp = { key_cmp };

    fn compare_rank(&self, other: &RangeKey) -> Ordering {
        compare_keys(*self, *other)
    }

    ghost ranks = { key_total };
}

fn compare_keys(a: RangeKey, b: RangeKey) -> Ordering
    ensures { result ≡ key_cmp a b }
{
    let begins = a
        .span
        .is_some()
        .cmp(&b.span.is_some())
        .then(begins_at(a.span).cmp(&begins_at(b.span)));
    let ends = ends_at(a.span)
        .cmp(&ends_at(b.span))
        .then(a.empty.cmp(&b.empty));
    begins.then(ends)
}

fn begins_at(span: Option<Bounds>) -> i128
    ensures { result ≡ begins_at span }
{
    match span {
        None => 0,
        Some(s) => low_at(s.lower),
    }
}

fn ends_at(span: Option<Bounds>) -> i128
    ensures { result ≡ ends_at span }
{
    match span {
        None => 0,
        Some(s) => high_at(s.upper),
    }
}
