//! Ranges of int4, int8 and date.
#![tactic(auto)]

mod bounds;
mod encoding;
mod laws;
mod operators;
mod print;
mod range;
mod steps;
mod text;

pub use laws::{decided, one_answer, one_encoding, printed_again};
pub use operators::range_holds;
pub use range::{Range, RangeKind, RangeOp};
