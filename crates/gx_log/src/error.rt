//! Why a log can't be read.

use thiserror::Error;

/// Why a log can't be read.
#[derive(Clone, Copy, Debug, Drop, PartialEq, Eq, Error)]
pub enum LogError {
    /// The disk failed.
    #[error("the disk failed")]
    DiskFault,
    /// An open record at the place `page` ends at `expected`, past the `found` bytes of the area; or the front, at the
    /// place `page`, has no byte among them. An end above 2^64 - 1 is carried as that number.
    #[error("broken page {page}: expected {expected}, found {found}")]
    Broken {
        page: u64,
        expected: u64,
        found: u64,
    },
    /// The allocator had no memory.
    #[error("out of memory")]
    Memory,
}
