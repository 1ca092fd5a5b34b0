//! The order of scalars, and the operators over it.

ghost use Rattle.std.specs.Prelude.{◌≡◌};
ghost use Rattle.gx_scalar.specs.Operators.{order, accepts, holds};

use crate::Scalar;
use std::cmp::Ordering;

/// The operators `= <> < <= > >=`.
#[derive(Clone, Copy, Debug, PartialEq, Eq)]
pub enum ScalarOp {
    Equal,
    NotEqual,
    Less,
    LessEqual,
    Greater,
    GreaterEqual,
}

impl ScalarOp {
    /// Tells whether the operator holds of a value that stands so to the operand.
    pub fn accepts(self, place: Ordering) -> bool
        ensures { result ≡ accepts self place }
    {
        match self {
            ScalarOp::Equal => place.is_eq(),
            ScalarOp::NotEqual => place.is_ne(),
            ScalarOp::Less => place.is_lt(),
            ScalarOp::LessEqual => place.is_le(),
            ScalarOp::Greater => place.is_gt(),
            ScalarOp::GreaterEqual => place.is_ge(),
        }
    }
}

impl Scalar {
    /// Numbers and days by value, uuid as a number of 128 bits, text and bytea by bytes, a prefix
    /// first. The scalars are of one type.
    pub fn compare(&self, other: &Scalar) -> Ordering
        ensures { result ≡ order self.now other.now }
    {
        match (self, other) {
            (Scalar::Int4(a), Scalar::Int4(b)) => a.cmp(b),
            (Scalar::Int8(a), Scalar::Int8(b)) => a.cmp(b),
            (Scalar::Text(a), Scalar::Text(b)) => a.as_slice().cmp(b.as_slice()),
            (Scalar::Bytea(a), Scalar::Bytea(b)) => a.as_slice().cmp(b.as_slice()),
            (Scalar::Date(a), Scalar::Date(b)) => a.cmp(b),
            (Scalar::Uuid(a), Scalar::Uuid(b)) => a.cmp(b),
            _ => Ordering::Equal,
        }
    }

    /// Tells whether the operator holds of this value and the operand, which are of one type.
    pub fn holds(&self, op: ScalarOp, operand: &Scalar) -> bool
        ensures { result ≡ holds op self.now operand.now }
    {
        op.accepts(self.compare(operand))
    }
}
