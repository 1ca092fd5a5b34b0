//! Posting lists: rows by rising numbers, as bytes.
#![tactic(auto)]

mod laws;
mod read;
mod write;

pub use laws::one_list;
pub use read::{last_posting, read_posting};
pub use write::push_posting;
