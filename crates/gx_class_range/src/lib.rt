//! The GiST operator class of ranges.
#![tactic(auto)]

mod class;
mod join;
mod key;
mod order;
mod penalty;
mod query;
mod read;
mod spell;
mod tests_of_keys;

pub use class::RangeClass;
pub use key::{Bounds, RangeKey};
pub use query::RangeQuery;
