//! Network addresses: IPv4 and IPv6 hosts with a mask, their texts, their bytes and their operators.
#![tactic(auto)]

mod encoding;
mod inet;
mod laws;
mod operators;
mod print;
mod text;

pub use inet::{Inet, InetOp};
pub use laws::{decided, one_answer, one_encoding, printed_again};
pub use operators::inet_holds;
