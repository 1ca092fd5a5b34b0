//! Statements that make, change and drop tables.
#![tactic(auto)]

mod appending;
mod index;
mod insertion;
mod table;
mod vacuuming;

pub use index::{create_index, drop_index};
pub use insertion::insert;
pub use table::{create_table, drop_table};
pub use vacuuming::vacuum;
