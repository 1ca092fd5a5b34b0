//! What a crash left of a disk.

use gx_bytes::Bytes;

/// The bytes of both areas.
#[derive(Debug, Drop)]
pub struct Image {
    pub pages: Bytes,
    pub log: Bytes,
}

/// Which of the images that a crash may leave is taken.
#[derive(Clone, Copy, Debug, Drop, PartialEq, Eq)]
pub enum Pick {
    /// No byte arrived that wasn't synced.
    Nothing,
    /// All bytes of the writes that answered Ok arrived.
    All,
    /// All lengths arrived, and each byte that wasn't synced is 255.
    Filled,
}
