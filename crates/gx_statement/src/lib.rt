//! What a statement does to the pages of a database, and its reply.
#![tactic(auto)]

mod stepping;

pub use stepping::step;
