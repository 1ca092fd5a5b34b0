//! Entry trees: ordered maps of byte strings on pages.
#![tactic(auto)]

mod keys;
mod laws;
mod listing;
mod next;
mod places;
mod putting;
mod removing;
mod tree;

pub use laws::one_map;
pub use listing::EntryBytes;
pub use tree::EntryTree;
