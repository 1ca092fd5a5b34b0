//! Scalar values: int4, int8, text, bytea, date and uuid.
#![tactic(auto)]

mod bytea;
mod encoding;
mod laws;
mod operators;
mod print;
mod scalar;
mod text;
mod uuids;

pub use laws::{one_answer, one_encoding, printed_again};
pub use operators::ScalarOp;
pub use scalar::{Scalar, ScalarKind};
