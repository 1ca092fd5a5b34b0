//! Statements that look for rows.
#![tactic(auto)]

mod counts;
mod deletion;
mod explanation;
mod filter;
mod narrow;
mod query;
mod selection;
mod target;
mod visit;
mod visitors;
mod walk;
mod wanted;

pub use query::{delete, explain, select};
