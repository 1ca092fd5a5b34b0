//! Array texts, arrays of int4 and queries over them: int4[] and query_int.
#![tactic(auto)]

mod array;
mod elements;
mod encoding;
mod formula;
mod laws;
mod number;
mod operators;
mod print;
mod text;
mod texts;

pub use array::IntArray;
pub use formula::{IntFormula, QueryInt};
pub use laws::{
    holds_decided, one_answer, one_array_answer, one_encoding, one_query_answer, printed_again,
};
pub use operators::IntQuery;
pub use texts::Texts;
