//! From two bounds and two brackets to a range.

ghost use Rattle.std.specs.Prelude.{◌≡◌, true};
ghost use Rattle.gx_range.specs.Values.{least, greatest, fits};
ghost use Rattle.gx_range.specs.Texts.{crosses, meets, raised, between, steps};

use crate::{Range, RangeKind};
use gx_bytes::ValueError;

/// What stands between the brackets, and whether each bracket takes its bound in. None is no bound.
#[derive(Clone, Copy, Debug)]
pub struct Form {
    pub lower_closed: bool,
    pub lower: Option<i64>,
    pub upper: Option<i64>,
    pub upper_closed: bool,
}

/// The range of the form: its lower bound is the first element, its upper the first behind the last.
pub fn range_of(kind: RangeKind, form: Form) -> Result<Range, ValueError>
    ensures { result ≡ steps kind form }
{
    if cross(form.lower, form.upper) {
        return Err(ValueError::NoValue);
    }
    if meet(wide(form.lower), wide(form.upper)) && !(form.lower_closed && form.upper_closed) {
        return Ok(Range::Empty);
    }
    span_of(
        kind,
        raise(!form.lower_closed, form.lower),
        raise(form.upper_closed, form.upper),
    )
}

fn span_of(kind: RangeKind, lower: Option<i128>, upper: Option<i128>) -> Result<Range, ValueError>
    ensures { result ≡ between kind lower upper }
{
    if !(is_bound(kind, lower) && is_bound(kind, upper)) {
        return Err(ValueError::OutOfRange);
    }
    if meet(lower, upper) {
        return Ok(Range::Empty);
    }
    Ok(Range::Span {
        lower: narrow(kind, lower),
        upper: narrow(kind, upper),
    })
}

fn cross(lower: Option<i64>, upper: Option<i64>) -> bool
    ensures { result ≡ crosses lower upper }
{
    match (lower, upper) {
        (Some(l), Some(u)) => u < l,
        _ => false,
    }
}

fn meet(lower: Option<i128>, upper: Option<i128>) -> bool
    ensures { result ≡ meets lower upper }
{
    match (lower, upper) {
        (Some(l), Some(u)) => l == u,
        _ => false,
    }
}

/// The bound with room for one more.
pub fn wide(bound: Option<i64>) -> Option<i128>
    ensures { result ≡ bound }
{
    match bound {
        Some(number) => Some(i128::from(number)),
        None => None,
    }
}

fn raise(up: bool, bound: Option<i64>) -> Option<i128>
    ensures { result ≡ raised up bound }
{
    match bound {
        Some(number) if up => Some(i128::from(number) + 1),
        Some(number) => Some(i128::from(number)),
        None => None,
    }
}

/// Whether the type has the bound.
pub fn is_bound(kind: RangeKind, bound: Option<i128>) -> bool
    ensures { result ≡ fits kind bound }
{
    match bound {
        Some(number) => i128::from(least_of(kind)) <= number
            && number <= i128::from(greatest_of(kind)),
        None => true,
    }
}

fn narrow(kind: RangeKind, bound: Option<i128>) -> Option<i64>
    requires { fits kind bound ≡ true }
    ensures { result ≡ bound }
{
    match bound {
        Some(number) => Some(number as i64),
        None => None,
    }
}

fn least_of(kind: RangeKind) -> i64
    ensures { result ≡ least kind }
{
    match kind {
        RangeKind::Int4 => i64::from(i32::MIN),
        RangeKind::Int8 => i64::MIN,
        RangeKind::Date => -719_162,
    }
}

fn greatest_of(kind: RangeKind) -> i64
    ensures { result ≡ greatest kind }
{
    match kind {
        RangeKind::Int4 => i64::from(i32::MAX),
        RangeKind::Int8 => i64::MAX,
        RangeKind::Date => 2_932_897,
    }
}
