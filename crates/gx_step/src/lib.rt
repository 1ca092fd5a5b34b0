//! What every statement on the pages of a database shares.
#![tactic(auto)]

mod laws;
mod opening;
mod reply;

pub use laws::tables_are_found;
pub use opening::load;
pub use reply::{counted, refused, told, wrong_at};
