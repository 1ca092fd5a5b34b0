//! Benchmarks of the store over a file: fetches, and commits.
#![tactic(auto)]

mod committing;
mod fetching;
mod filling;

pub use committing::commits;
pub use fetching::fetches;
