//! What a query wants.

use crate::Items;

/// Which rows a query looks at.
#[derive(Clone, Copy, Debug, PartialEq, Eq)]
pub enum Mode {
    /// Those with some wanted item.
    Default,
    /// These, and those without any items.
    IncludeEmpty,
    /// Every row.
    All,
}

/// The items that a query wants, and the rows that it looks at.
#[derive(Drop)]
pub struct Wanted {
    pub items: Items,
    pub mode: Mode,
}
