//! The states that a store went through, for clauses alone.

ghost use Rattle.std.specs.Prelude.{◌≡◌, List, [], ◌∷◌};
ghost use Rattle.std.specs.Borrow.{ftrue};
ghost use Rattle.std.specs.Coded.{coded_list};
ghost use Rattle.gx_pages.specs.declared.table.PageTable.{PageTable};
ghost use Rattle.gx_pages.specs.contracts.table.PageTable.{the_row as table_row};

use crate::table::PageTable;
use std::marker::Model;

/// The tables as they were before each commit, the newest first. It takes no bytes. Nothing ties the list to memory:
/// only the meaning of a store's moments reads it.
#[derive(Drop)]
pub struct History {
    pub ghost tables: { List PageTable } by { coded_list table_row.coded },
}

impl Model for History {
    ghost also_owns = { λ _. ftrue };
}

impl History {
    /// No commit yet.
    pub fn new() -> History
        ensures { result.tables ≡ [] }
    {
        History {}
    }

    /// One table more.
    pub fn with(_before: &History, _table: &PageTable) -> History
        ensures { result.tables ≡ _table.now ∷ _before.now.tables }
    {
        History {}
    }
}
