//! Maps from keys to values or NULL: hstore, with its texts, its bytes and its operators.
#![tactic(auto)]

mod encoding;
mod first;
mod hstore;
mod laws;
mod operators;
mod order;
mod print;
mod strings;
mod text;

pub use hstore::{Entry, Hstore};
pub use laws::{decided, made_of_pairs, one_answer, one_encoding, printed_again};
