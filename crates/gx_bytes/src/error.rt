//! What can be wrong with the text of a value, and want of memory.

use std::alloc::AllocError;
use thiserror::Error;

/// The allocator had no memory.
pub type NoMemory = AllocError;

/// Why a text is read as no value.
#[derive(Clone, Copy, Debug, Drop, PartialEq, Eq, Error)]
pub enum ValueError {
    /// The text spells no value of the type.
    #[error("the text spells no value")]
    NoValue,
    /// The text spells a number or a day that the type doesn't have.
    #[error("the value is out of range")]
    OutOfRange,
    /// Parentheses, brackets or negations are nested too deeply.
    #[error("the text is nested too deeply")]
    TooDeep,
    /// The allocator had no memory.
    #[error("out of memory")]
    Memory,
}
