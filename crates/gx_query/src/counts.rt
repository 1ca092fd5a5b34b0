//! Counted rows.

ghost use Rattle.std.specs.Prelude.{◌≡◌, ◌+◌, if◌then◌else◌, OnOk, OnErr};

use gx_bytes::NoMemory;
use std::alloc::AllocError;

/// How many rows were looked at, and of how many of them a condition is true.
#[derive(Clone, Copy, Debug, Drop, PartialEq, Eq)]
pub struct Counts {
    pub rows: u64,
    pub selected: u64,
}

impl Counts {
    /// Counts one more row. More than a memory could ever hold aren't counted.
    pub fn add(&mut self, selected: bool) -> Result<(), NoMemory>
        ensures rows { OnOk result (self.new.rows ≡ self.old.rows + 1) }
        ensures selected { OnOk result (self.new.selected ≡ self.old.selected + (if selected then 1 else 0)) }
    {
        let Some(rows) = self.rows.checked_add(1) else {
            return Err(AllocError);
        };
        let more = if selected { 1 } else { 0 };
        let Some(selected) = self.selected.checked_add(more) else {
            return Err(AllocError);
        };
        self.rows = rows;
        self.selected = selected;
        Ok(())
    }
}
