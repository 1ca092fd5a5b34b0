//! The GiST operator class of network addresses.
#![tactic(auto)]

mod class;
mod join;
mod key;
mod laws;
mod order;
mod penalty;
mod query;
mod read;
mod spell;
mod tests_of_keys;

pub use class::InetClass;
pub use gx_inet::InetOp;
pub use key::{InetKey, Net};
pub use laws::no_more_bits_are_shared;
pub use query::InetQuery;
