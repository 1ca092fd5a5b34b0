//! Why a statement isn't done.

use thiserror::Error;

/// Why a part of a statement is refused.
#[derive(Clone, Copy, Debug, Drop, PartialEq, Eq, Error)]
pub enum Refusal {
    /// The statement has the fault of this number.
    #[error("E{number}")]
    Fault { number: u8 },
    /// The allocator had no memory.
    #[error("out of memory")]
    Memory,
}
