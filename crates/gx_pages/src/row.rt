//! Where a row stands.

/// A row: its number, its page, and its place on the page.
#[derive(Clone, Copy, Debug, Drop, PartialEq, Eq)]
pub struct RowRef {
    pub number: u64,
    pub page: u64,
    pub slot: u16,
}
