//! How much a key grows where another is united with it.

ghost use Rattle.std.specs.Prelude.{◌≡◌, ◌+◌, slice_index};
ghost use Rattle.gx_class_scalar.specs.Growths.{rise, head, cut_growth, growth};

use crate::{Part, ScalarKey};

/// The sum of what the key grows by at both ends, at most the greatest `u128`. Of cut values the
/// first eight bytes count.
pub fn growth_of(key: &ScalarKey, added: &ScalarKey) -> u128
    ensures { result ≡ growth key.now added.now }
{
    match (key, added) {
        (ScalarKey::Int4 { lo, hi }, ScalarKey::Int4 { lo: l, hi: h }) => grown(
            i64::from(*lo),
            i64::from(*hi),
            i64::from(*l),
            i64::from(*h),
        ),
        (ScalarKey::Int8 { lo, hi }, ScalarKey::Int8 { lo: l, hi: h }) => grown(*lo, *hi, *l, *h),
        (ScalarKey::Date { lo, hi }, ScalarKey::Date { lo: l, hi: h }) => grown(
            i64::from(*lo),
            i64::from(*hi),
            i64::from(*l),
            i64::from(*h),
        ),
        (ScalarKey::Uuid { lo, hi }, ScalarKey::Uuid { lo: l, hi: h }) => lo
            .saturating_sub(*l)
            .saturating_add(h.saturating_sub(*hi)),
        (ScalarKey::Cut { lo, hi }, ScalarKey::Cut { lo: l, hi: h }) => {
            growth_of_cuts(lo.bytes.as_slice(), hi.bytes.as_slice(), l, h)
        }
        _ => 0,
    }
}

fn grown(lo: i64, hi: i64, added_lo: i64, added_hi: i64) -> u128
    ensures { result ≡ rise added_lo lo + rise hi added_hi }
{
    u128::from(rise(added_lo, lo)) + u128::from(rise(hi, added_hi))
}

/// How far the second number lies above the first.
fn rise(a: i64, b: i64) -> u64
    ensures { result ≡ rise a b }
{
    if a < b { b.abs_diff(a) } else { 0 }
}

/// The same of cut values, by their first eight bytes.
pub fn growth_of_cuts(low: &[u8], high: &[u8], added_lo: &Part, added_hi: &Part) -> u128
    ensures { result ≡ cut_growth low.now high.now added_lo.now added_hi.now }
{
    let below = head_of(low).saturating_sub(head_of(added_lo.bytes.as_slice()));
    let above = head_of(added_hi.bytes.as_slice()).saturating_sub(head_of(high));
    u128::from(below) + u128::from(above)
}

/// The first eight bytes as a number, zeros behind a shorter value.
fn head_of(bytes: &[u8]) -> u64
    ensures { result ≡ head bytes.now }
{
    u64::from_be_bytes([
        byte_at(bytes, 0),
        byte_at(bytes, 1),
        byte_at(bytes, 2),
        byte_at(bytes, 3),
        byte_at(bytes, 4),
        byte_at(bytes, 5),
        byte_at(bytes, 6),
        byte_at(bytes, 7),
    ])
}

fn byte_at(bytes: &[u8], at: usize) -> u8
    ensures { result ≡ slice_index bytes.now at }
{
    if at < bytes.len() { bytes[at] } else { 0 }
}
