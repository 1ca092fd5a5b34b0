//! Why a piece is no statement.

use thiserror::Error;

/// Why a piece is no statement.
#[derive(Clone, Copy, Debug, Drop, PartialEq, Eq, Error)]
pub enum ParseError {
    /// No statement goes on with what stands at this place, counted in bytes from 0.
    #[error("syntax error at {at}")]
    Syntax { at: u64 },
    /// A condition opens a 65th parenthesis or NOT, or has a 1,025th AND or OR.
    #[error("the condition is nested too deeply")]
    TooDeep,
    /// The allocator had no memory.
    #[error("out of memory")]
    Memory,
}
