//! What GIN operator classes share: items that are kept short, and flags of items.
#![tactic(auto)]

mod flags;
mod short;

pub use flags::{all_found, maybe, place_of, some_found, sure};
pub use short::push_short;
