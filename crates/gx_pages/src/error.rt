//! Why a call on pages fails.

use thiserror::Error;

/// Why a call on pages fails.
#[derive(Clone, Copy, Debug, Drop, PartialEq, Eq, Error)]
pub enum PageError {
    /// The disk failed.
    #[error("the disk failed")]
    DiskFault,
    /// The page isn't what it has to be: a number was expected there, and another one was found.
    #[error("broken page {page}: expected {expected}, found {found}")]
    Broken {
        page: u64,
        expected: u64,
        found: u64,
    },
    /// There are no more page numbers: so many pages are there.
    #[error("no page is left of {pages}")]
    PageSpace {
        pages: u64,
    },
    /// The allocator had no memory.
    #[error("out of memory")]
    Memory,
}
