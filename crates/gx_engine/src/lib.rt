//! The engine: it executes the pieces of a script, one at a time, on a database that stands on pages.
#![tactic(auto)]

mod engine;
mod execute;
mod reply;

pub use engine::{Engine, Kind};
pub use execute::Execute;
pub use reply::Reply;
