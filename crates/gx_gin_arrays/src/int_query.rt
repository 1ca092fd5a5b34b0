//! Queries over sets of numbers.

use crate::PlacedQuery;
use gx_intarr::IntArray;

/// An operator of int4[] with its operand: `&&`, `@>`, `<@` and `=` and an array, `@@` and a query.
#[derive(Debug, Drop)]
pub enum IntQuery {
    Overlaps(IntArray),
    Contains(IntArray),
    Within(IntArray),
    Equal(IntArray),
    Formula(PlacedQuery),
}
