//! The two areas of a disk.

/// An area of a disk: a list of bytes of its own.
#[derive(Clone, Copy, Debug, Drop, PartialEq, Eq)]
pub enum Area {
    /// The pages, one behind another.
    Pages,
    /// The log of page images.
    Log,
}
