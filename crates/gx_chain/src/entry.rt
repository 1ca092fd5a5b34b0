//! An item of a chain, and where it stands.

use gx_bytes::Bytes;

/// An item of a chain: its page, its slot there, and its bytes.
#[derive(Debug, Drop)]
pub struct Entry {
    pub page: u64,
    pub slot: u16,
    pub item: Bytes,
}
