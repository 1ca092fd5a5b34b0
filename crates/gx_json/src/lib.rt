//! Documents in JSON: trees, their texts, their bytes and their operators.
#![tactic(auto)]

mod convert;
mod copy;
mod document;
mod encoding;
mod laws;
mod operators;
mod print;
mod quoted;
mod scan;
mod text;

pub use document::{Json, JsonList, JsonPairs};
pub use laws::{
    decided, last_of_equal_keys, longest_runs, one_answer, one_encoding, one_order, one_reading,
    printed_again,
};
