//! Formulas of words over the labels of a path: ltxtquery; and all operators of ltree.
#![tactic(auto)]

mod formula;
mod laws;
mod operators;
mod text;
mod word;

pub use formula::{Ltxtquery, WordFormula};
pub use laws::{holds_decided, one_answer};
pub use operators::LtreeQuery;
