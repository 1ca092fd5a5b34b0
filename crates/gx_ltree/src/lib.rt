//! Label paths: lists of labels, their texts, their bytes and their operators.
#![tactic(auto)]

mod encoding;
mod label;
mod laws;
mod operators;
mod path;
mod print;
mod text;

pub use label::{is_label_byte, take_label};
pub use laws::{holds_decided, one_answer, printed_again};
pub use operators::LtreeOp;
pub use path::Path;
