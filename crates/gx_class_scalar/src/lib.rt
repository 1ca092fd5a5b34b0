//! The GiST operator classes of scalars.
#![tactic(auto)]

mod class;
mod join;
mod key;
mod on_bytes;
mod order;
mod penalty;
mod query;
mod read;
mod read_cut;
mod spell;
mod tests_of_keys;

pub use class::ScalarClass;
pub use gx_scalar::ScalarOp;
pub use key::{Part, ScalarKey};
pub use query::ScalarQuery;
