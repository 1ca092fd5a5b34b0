//! Queries.

use gx_scalar::{Scalar, ScalarOp};

/// An operator with its operand.
#[derive(Debug, Drop)]
pub struct ScalarQuery {
    pub op: ScalarOp,
    pub operand: Scalar,
}
