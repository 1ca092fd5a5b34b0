//! A tree of the keys of an operator class, on pages: a map from rows to leaf keys, searched by the keys above them
//! (PostgreSQL 16, chapter 68, "GiST Indexes").
#![tactic(auto)]

mod change;
mod choosing;
mod dropping;
mod found;
mod insertion;
mod items;
mod laws;
mod laying;
mod putting;
mod reading;
mod removal;
mod replacing;
mod search;
mod seen;
mod tree;
mod uniting;

pub use laws::{insert_is_sound, one_tree, same_tree, search_is_exact, tree_stays};
pub use tree::Tree;
