//! Tests of an operator between two paths.

ghost use Rattle.std.specs.Prelude.{◌≡◌};
ghost use Rattle.gx_ltree.specs.Operators.{order, begins_with};
ghost use Rattle.gx_class_ltree.specs.Tests.{sure, cut_order, passes, order_answer, cut_answer, between, equal_may, path_may};

use crate::LtreeKey;
use crate::labels::has_labels;
use crate::tests_of_labels::maybe;
use gx_bytes::Bytes;
use gx_gist::Test;
use gx_ltree::{LtreeOp, Path};
use std::cmp::Ordering;

/// Yes where a condition holds, else No.
pub fn sure(holds: bool) -> Test
    ensures { result ≡ sure holds }
{
    if holds { Test::Yes } else { Test::No }
}

/// What the key of one path that goes on behind its part says of an operator and an operand.
pub fn test_cut<const N: usize>(key: &LtreeKey<N>, op: LtreeOp, operand: &Path) -> Test
    ensures { result ≡ cut_answer N key.now.sig op key.now.low.path operand.now }
{
    let path = &key.low.path;
    match op {
        LtreeOp::Above => { maybe(begins_with(operand, path) && path.count() < operand.count()) }
        LtreeOp::Below => {
            if operand.count() <= path.count() {
                sure(begins_with(path, operand))
            } else {
                maybe(begins_with(operand, path) && has_labels(&key.sig, operand.labels()))
            }
        }
        _ => order_answer(op, cut_order(path.labels(), operand.labels())),
    }
}

/// What a key above the leaves says of an operator and an operand.
pub fn path_may<const N: usize>(key: &LtreeKey<N>, op: LtreeOp, operand: &Path) -> bool
    ensures { result ≡ path_may N key.now.low.path key.now.high.path key.now.sig op operand.now }
{
    let low = &key.low.path;
    let high = &key.high.path;
    match op {
        LtreeOp::Less | LtreeOp::LessEqual | LtreeOp::Above => low.compare(operand).is_le(),
        LtreeOp::Equal => equal_may(low.labels(), high.labels(), operand.labels()),
        LtreeOp::GreaterEqual | LtreeOp::Greater => {
            high.compare(operand).is_ge()
                || equal_may(low.labels(), high.labels(), operand.labels())
        }
        LtreeOp::Below => has_labels(&key.sig, operand.labels()),
    }
}

/// Tells whether the path begins with these labels.
fn begins_with(path: &Path, front: &Path) -> bool
    ensures { result ≡ begins_with path.now front.now }
{
    front.above(path)
}

fn order_answer(op: LtreeOp, order: Option<Ordering>) -> Test
    ensures { result ≡ order_answer op order }
{
    match order {
        None => Test::Maybe,
        Some(order) => sure(passes(op, order)),
    }
}

/// Whether an operator of order holds of a value that compares so with the operand.
fn passes(op: LtreeOp, order: Ordering) -> bool
    ensures { result ≡ passes op order }
{
    match op {
        LtreeOp::Less => order.is_lt(),
        LtreeOp::LessEqual => order.is_le(),
        LtreeOp::Equal => order.is_eq(),
        LtreeOp::GreaterEqual => order.is_ge(),
        LtreeOp::Greater => order.is_gt(),
        LtreeOp::Above | LtreeOp::Below => false,
    }
}

/// How a path that goes on behind `part` compares with `path`, if the part tells it.
fn cut_order(part: &[Bytes], path: &[Bytes]) -> Option<Ordering>
    ensures { result ≡ cut_order part.now path.now }
{
    let mut a = part;
    let mut b = path;
    while let [y, ys @ ..] = b {
        let [x, xs @ ..] = a else {
            return None;
        };
        let first = x.as_slice().cmp(y.as_slice());
        if first != Ordering::Equal {
            return Some(first);
        }
        a = xs;
        b = ys;
    }
    Some(Ordering::Greater)
}

/// Tells whether a prefix of the path lies between the two.
fn equal_may(low: &[Bytes], high: &[Bytes], path: &[Bytes]) -> bool
    ensures { result ≡ equal_may low.now high.now path.now }
{
    for count in 0..path.len() {
        if between(low, high, &path[..count]) {
            return true;
        }
    }
    between(low, high, path)
}

fn between(low: &[Bytes], high: &[Bytes], path: &[Bytes]) -> bool
    ensures { result ≡ between low.now high.now path.now }
{
    compare_labels(low, path).is_le() && compare_labels(path, high).is_le()
}

/// Label by label by bytes, a path before its extensions.
fn compare_labels(left: &[Bytes], right: &[Bytes]) -> Ordering
    ensures { result ≡ order left.now right.now }
{
    let mut a = left;
    let mut b = right;
    while let [x, xs @ ..] = a {
        let [y, ys @ ..] = b else {
            return Ordering::Greater;
        };
        let first = x.as_slice().cmp(y.as_slice());
        if first != Ordering::Equal {
            return first;
        }
        a = xs;
        b = ys;
    }
    if b.is_empty() {
        Ordering::Equal
    } else {
        Ordering::Less
    }
}
