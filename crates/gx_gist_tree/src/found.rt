//! What a search has found so far.

ghost use Rattle.std.specs.Prelude.{◌≡◌, []};

use crate::seen::Seen;
use gx_pages::RowRef;
use std::alloc::Global;

/// The rows that a search has found, and the pages above level 0 that it has seen.
#[derive(Drop)]
pub struct Found {
    pub rows: Vec<RowRef>,
    pub seen: Seen,
}

impl Found {
    /// Nothing yet.
    pub fn new(alloc: Global) -> Found
        ensures rows { result.rows.items ≡ [] }
        ensures seen { result.seen ≡ [] }
    {
        Found {
            rows: Vec::new(alloc),
            seen: Seen::new(alloc),
        }
    }
}
