//! Formulas of words joined by `!`, `&`, `|` and parentheses, over any kind of word.
#![tactic(auto)]

mod formula;
mod parser;
mod read;
mod sign;

pub use formula::Formula;
pub use read::read_formula;
pub use sign::Sign;
