//! The tests of keys.

ghost use Rattle.std.specs.Prelude.{◌≡◌};
ghost use Rattle.gx_class_scalar.specs.Keys.{front};
ghost use Rattle.gx_scalar.specs.Operators.{accepts};
ghost use Rattle.gx_class_scalar.specs.Orders.{may_accept, may_accept_cut};
ghost use Rattle.gx_class_scalar.specs.Readings.{part_with};
ghost use Rattle.gx_class_scalar.specs.Tests.{decided, part_test, parts_test, may, leaf_answer, inner_answer, key_test};

use crate::{ScalarKey, ScalarOp};
use gx_gist::Test;
use gx_scalar::Scalar;
use std::cmp::Ordering;

/// Most bytes of a cut value.
const LONGEST: usize = 900;

/// The test of a key.
pub fn test_key(at_leaf: bool, op: ScalarOp, key: &ScalarKey, operand: &Scalar) -> Test
    ensures { result ≡ key_test at_leaf op key.now operand.now }
{
    if at_leaf {
        test_leaf(op, key, operand)
    } else {
        test_inner(op, key, operand)
    }
}

/// The test of the key of one value.
fn test_leaf(op: ScalarOp, key: &ScalarKey, operand: &Scalar) -> Test
    ensures { result ≡ leaf_answer op key.now operand.now }
{
    match (key, operand) {
        (ScalarKey::Int4 { lo, .. }, Scalar::Int4(n)) => decide(op, lo.cmp(n)),
        (ScalarKey::Int8 { lo, .. }, Scalar::Int8(n)) => decide(op, lo.cmp(n)),
        (ScalarKey::Date { lo, .. }, Scalar::Date(n)) => decide(op, lo.cmp(n)),
        (ScalarKey::Uuid { lo, .. }, Scalar::Uuid(n)) => decide(op, lo.cmp(n)),
        (ScalarKey::Cut { lo, .. }, Scalar::Text(q)) => test_part(
            op,
            lo.bytes.as_slice(),
            lo.more,
            q.as_slice(),
        ),
        (ScalarKey::Cut { lo, .. }, Scalar::Bytea(q)) => test_part(
            op,
            lo.bytes.as_slice(),
            lo.more,
            q.as_slice(),
        ),
        _ => Test::No,
    }
}

/// The test of the key of many values.
fn test_inner(op: ScalarOp, key: &ScalarKey, operand: &Scalar) -> Test
    ensures { result ≡ inner_answer op key.now operand.now }
{
    match (key, operand) {
        (ScalarKey::Int4 { lo, hi }, Scalar::Int4(n)) => maybe(may(op, lo.cmp(n), hi.cmp(n))),
        (ScalarKey::Int8 { lo, hi }, Scalar::Int8(n)) => maybe(may(op, lo.cmp(n), hi.cmp(n))),
        (ScalarKey::Date { lo, hi }, Scalar::Date(n)) => maybe(may(op, lo.cmp(n), hi.cmp(n))),
        (ScalarKey::Uuid { lo, hi }, Scalar::Uuid(n)) => maybe(may(op, lo.cmp(n), hi.cmp(n))),
        (ScalarKey::Cut { lo, hi }, Scalar::Text(q)) => test_parts(
            op,
            lo.bytes.as_slice(),
            hi.bytes.as_slice(),
            q.as_slice(),
        ),
        (ScalarKey::Cut { lo, hi }, Scalar::Bytea(q)) => test_parts(
            op,
            lo.bytes.as_slice(),
            hi.bytes.as_slice(),
            q.as_slice(),
        ),
        _ => Test::No,
    }
}

/// Of the key of one value that begins with these bytes, and goes on where there are more.
pub fn test_part(op: ScalarOp, bytes: &[u8], more: bool, operand: &[u8]) -> Test
    ensures { result ≡ part_test op (part_with bytes.now more) operand.now }
{
    if !more {
        return decide(op, bytes.cmp(operand));
    }
    match bytes.cmp(front_of(operand)) {
        Ordering::Less => decide(op, Ordering::Less),
        Ordering::Greater => decide(op, Ordering::Greater),
        Ordering::Equal => {
            if operand.len() <= LONGEST {
                decide(op, Ordering::Greater)
            } else {
                Test::Maybe
            }
        }
    }
}

/// Of a key from the first of these cut values to the second.
pub fn test_parts(op: ScalarOp, low: &[u8], high: &[u8], operand: &[u8]) -> Test
    ensures { result ≡ parts_test op low.now high.now operand.now }
{
    let front = front_of(operand);
    maybe(may_cut(op, low.cmp(front), high.cmp(front)))
}

/// The first 900 bytes.
pub fn front_of(bytes: &[u8]) -> &[u8]
    ensures { result.now ≡ front bytes.now }
{
    &bytes[..bytes.len().min(LONGEST)]
}

fn decide(op: ScalarOp, place: Ordering) -> Test
    ensures { result ≡ decided op place }
{
    if op.accepts(place) {
        Test::Yes
    } else {
        Test::No
    }
}

fn maybe(some: bool) -> Test
    ensures { result ≡ may some }
{
    if some { Test::Maybe } else { Test::No }
}

fn may(op: ScalarOp, lo: Ordering, hi: Ordering) -> bool
    ensures { result ≡ may_accept op lo hi }
{
    match op {
        ScalarOp::Equal => lo.is_le() && hi.is_ge(),
        ScalarOp::NotEqual => !(lo.is_eq() && hi.is_eq()),
        ScalarOp::Less => lo.is_lt(),
        ScalarOp::LessEqual => lo.is_le(),
        ScalarOp::Greater => hi.is_gt(),
        ScalarOp::GreaterEqual => hi.is_ge(),
    }
}

fn may_cut(op: ScalarOp, lo: Ordering, hi: Ordering) -> bool
    ensures { result ≡ may_accept_cut op lo hi }
{
    match op {
        ScalarOp::Equal => lo.is_le() && hi.is_ge(),
        ScalarOp::NotEqual => true,
        ScalarOp::Less => lo.is_le(),
        ScalarOp::LessEqual => lo.is_le(),
        ScalarOp::Greater => hi.is_ge(),
        ScalarOp::GreaterEqual => hi.is_ge(),
    }
}
