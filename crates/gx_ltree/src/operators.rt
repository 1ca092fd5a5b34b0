//! The order of paths, and the operators between two paths.

ghost use Rattle.std.specs.Prelude.{◌≡◌, ◌↔◌, IsTrue};
ghost use Rattle.gx_ltree.specs.Operators.{order, IsPrefix, Holds};

use crate::path::Path;
use gx_bytes::Bytes;
use std::cmp::Ordering;

/// The operators `< <= = >= > @> <@` between a path and a path.
#[derive(Clone, Copy, Debug, PartialEq, Eq)]
pub enum LtreeOp {
    Less,
    LessEqual,
    Equal,
    GreaterEqual,
    Greater,
    Above,
    Below,
}

impl Path {
    /// The order of paths: label by label by bytes, a path before its extensions.
    pub fn compare(&self, other: &Path) -> Ordering
        ensures { result ≡ order self.now other.now }
    {
        compare_labels(self.labels(), other.labels())
    }

    /// Whether `other` begins with this path (`@>`).
    pub fn above(&self, other: &Path) -> bool
        ensures { IsTrue result ↔ IsPrefix self.now other.now }
    {
        begins_with(other.labels(), self.labels())
    }

    /// Whether the operator holds of this path and the operand.
    pub fn holds(&self, op: LtreeOp, operand: &Path) -> bool
        ensures { IsTrue result ↔ Holds op self.now operand.now }
    {
        match op {
            LtreeOp::Less => self.compare(operand).is_lt(),
            LtreeOp::LessEqual => self.compare(operand).is_le(),
            LtreeOp::Equal => self.compare(operand).is_eq(),
            LtreeOp::GreaterEqual => self.compare(operand).is_ge(),
            LtreeOp::Greater => self.compare(operand).is_gt(),
            LtreeOp::Above => self.above(operand),
            LtreeOp::Below => operand.above(self),
        }
    }
}

fn compare_labels(left: &[Bytes], right: &[Bytes]) -> Ordering
    ensures { result ≡ order left.now right.now }
{
    let mut a = left;
    let mut b = right;
    while let [x, xs @ ..] = a {
        let [y, ys @ ..] = b else {
            return Ordering::Greater;
        };
        let first = x.as_slice().cmp(y.as_slice());
        if first != Ordering::Equal {
            return first;
        }
        a = xs;
        b = ys;
    }
    if b.is_empty() {
        Ordering::Equal
    } else {
        Ordering::Less
    }
}

fn begins_with(path: &[Bytes], front: &[Bytes]) -> bool
    ensures { IsTrue result ↔ IsPrefix front.now path.now }
{
    let mut a = front;
    let mut b = path;
    while let [x, xs @ ..] = a {
        let [y, ys @ ..] = b else {
            return false;
        };
        if x.as_slice() != y.as_slice() {
            return false;
        }
        a = xs;
        b = ys;
    }
    true
}
