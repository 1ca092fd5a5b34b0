//! Executing the pieces of a script on a store, with a session's block.
#![tactic(auto)]

mod executing;
mod reading;
mod statements;
mod task;
mod units;
mod working;

pub use statements::Statements;
