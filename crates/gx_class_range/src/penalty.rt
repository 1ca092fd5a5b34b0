//! How much a key grows where another is united with it.

ghost use Rattle.std.specs.Prelude.{◌≡◌, ◌≤◌, ◌^◌};
ghost use Rattle.gx_class_range.specs.Growths.{length_of, growth};

use crate::join::{high_at, hull, low_at};
use crate::{Bounds, RangeKey};

/// How much longer the span becomes, and 1 where the flag is new.
pub fn growth_of(key: RangeKey, added: RangeKey) -> u128
    ensures { result ≡ growth key added }
{
    let longer = length_of(hull(key.span, added.span)).saturating_sub(length_of(key.span));
    if added.empty && !key.empty {
        longer + 1
    } else {
        longer
    }
}

fn length_of(span: Option<Bounds>) -> u128
    ensures value { result ≡ length_of span }
    ensures small { result ≤ 2 ^ 65 }
{
    match span {
        None => 0,
        Some(s) => high_at(s.upper).abs_diff(low_at(s.lower)),
    }
}
