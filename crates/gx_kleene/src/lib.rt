//! Formulas over tests of words, in Kleene's three-valued logic: No is false, Yes is true, Maybe is unknown.
#![tactic(auto)]

mod answers;

pub use answers::{both, either, opposite, unsure};
