//! Posting trees: the rows of a long posting list on pages.
#![tactic(auto)]

mod appending;
mod filling;
mod laws;
mod reading;
mod removing;
mod tree;

pub use laws::one_list;
pub use removing::kept_item;
pub use tree::PostingTree;
