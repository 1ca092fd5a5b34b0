//! Queries.

use gx_inet::{Inet, InetOp};

/// An operator with its operand.
#[derive(Clone, Copy, Debug, PartialEq, Eq)]
pub struct InetQuery {
    pub op: InetOp,
    pub operand: Inet,
}
