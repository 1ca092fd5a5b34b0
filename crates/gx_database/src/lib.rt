//! Which databases maps of pages stand for.
#![tactic(auto)]

mod laws;

pub use laws::{a_table_changes, empty_stands, no_gap, one_database, parts_are_held, parts_change};
