//! Queries over sets of numbers.

use gx_intarr::{IntArray, QueryInt};

/// An operator of int4[] that an index supports, with its operand: `&&`, `@>` and `=` and an array, `@@` and a query.
#[derive(Debug, Drop)]
pub enum IntQuery {
    Overlaps(IntArray),
    Contains(IntArray),
    Equal(IntArray),
    Formula(QueryInt),
}
