//! Queries.

use gx_range::{Range, RangeOp};

/// An operator with a range as its operand, or `@>` with an element.
#[derive(Clone, Copy, Debug, PartialEq, Eq)]
pub enum RangeQuery {
    Range { op: RangeOp, operand: Range },
    Element(i64),
}
