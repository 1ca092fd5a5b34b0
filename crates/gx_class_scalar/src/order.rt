//! The order of keys that a split may cut.

ghost use Rattle.std.specs.Prelude.{◌≡◌};
ghost use Rattle.gx_class_scalar.specs.Sorting.{ints_cmp, nats_cmp, parts_cmp, key_cmp, key_total, part_lo, part_hi, int_lo, int_hi, nat_lo, nat_hi};

use crate::ScalarKey;
use gx_gist::Ranked;
use std::cmp::Ordering;

impl Ranked for ScalarKey {
    ghost rank_cmp = { key_cmp };

    fn compare_rank(&self, other: &ScalarKey) -> Ordering {
        compare_keys(self, other)
    }

    ghost ranks = { key_total };
}

/// By the lesser value, then by the greater.
fn compare_keys(a: &ScalarKey, b: &ScalarKey) -> Ordering
    ensures { result ≡ key_cmp a.now b.now }
{
    compare_ints(a, b).then(compare_nats(a, b).then(compare_cuts(a, b)))
}

fn compare_ints(a: &ScalarKey, b: &ScalarKey) -> Ordering
    ensures { result ≡ ints_cmp a.now b.now }
{
    let (l, h) = ints_of(a);
    let (m, n) = ints_of(b);
    l.cmp(&m).then(h.cmp(&n))
}

fn ints_of(key: &ScalarKey) -> (i64, i64)
    ensures lo { result.0 ≡ int_lo key.now }
    ensures hi { result.1 ≡ int_hi key.now }
{
    match key {
        ScalarKey::Int4 { lo, hi } => (i64::from(*lo), i64::from(*hi)),
        ScalarKey::Int8 { lo, hi } => (*lo, *hi),
        ScalarKey::Date { lo, hi } => (i64::from(*lo), i64::from(*hi)),
        _ => (0, 0),
    }
}

fn compare_nats(a: &ScalarKey, b: &ScalarKey) -> Ordering
    ensures { result ≡ nats_cmp a.now b.now }
{
    let (l, h) = nats_of(a);
    let (m, n) = nats_of(b);
    l.cmp(&m).then(h.cmp(&n))
}

fn nats_of(key: &ScalarKey) -> (u128, u128)
    ensures lo { result.0 ≡ nat_lo key.now }
    ensures hi { result.1 ≡ nat_hi key.now }
{
    match key {
        ScalarKey::Uuid { lo, hi } => (*lo, *hi),
        _ => (0, 0),
    }
}

fn compare_cuts(a: &ScalarKey, b: &ScalarKey) -> Ordering
    ensures { result ≡ parts_cmp a.now b.now }
{
    let (l, p) = low_part(a);
    let (m, q) = low_part(b);
    let (h, r) = high_part(a);
    let (n, s) = high_part(b);
    l.cmp(m).then(p.cmp(&q)).then(h.cmp(n).then(r.cmp(&s)))
}

fn low_part(key: &ScalarKey) -> (&[u8], bool)
    ensures bytes { result.0.now ≡ (part_lo key.now).bytes }
    ensures more { result.1 ≡ (part_lo key.now).more }
{
    match key {
        ScalarKey::Cut { lo, .. } => (lo.bytes.as_slice(), lo.more),
        _ => (b"".as_slice(), false),
    }
}

fn high_part(key: &ScalarKey) -> (&[u8], bool)
    ensures bytes { result.0.now ≡ (part_hi key.now).bytes }
    ensures more { result.1 ≡ (part_hi key.now).more }
{
    match key {
        ScalarKey::Cut { hi, .. } => (hi.bytes.as_slice(), hi.more),
        _ => (b"".as_slice(), false),
    }
}
