//! The right side of an operator.

use gx_intarr::{QueryInt, Texts};
use gx_lquery::{Lqueries, Lquery};
use gx_ltxtquery::Ltxtquery;
use gx_value::{OperandType, Value};

/// The right side of an operator, with its type.
#[derive(Debug, Drop)]
pub struct Operand {
    pub kind: OperandType,
    pub part: Part,
}

/// The right side of an operator: Texts for text[], Lqueries for lquery[], the variant of the same name for
/// lquery, ltxtquery and query_int, and else a value of a column type.
#[derive(Debug, Drop)]
pub enum Part {
    Value(Value),
    Texts(Texts),
    Lquery(Lquery),
    Lqueries(Lqueries),
    Ltxtquery(Ltxtquery),
    QueryInt(QueryInt),
}
