//! Lists of rows: what is in both of two, what is in one of them, and those of whose bytes a test is true.
#![tactic(auto)]

mod laws;
mod merge;
mod rescan;

pub use laws::one_list;
pub use merge::{and, or};
pub use rescan::{KeptPage, Rescan, RowTest};
