//! The GiST operator class of label paths.
#![tactic(auto)]

mod class;
mod join;
mod key;
mod labels;
mod order;
mod parts;
mod read;
mod spell;
mod tests_of_keys;
mod tests_of_labels;
mod tests_of_paths;

pub use class::LtreeClass;
pub use gx_ltxtquery::LtreeQuery;
pub use key::{LtreeKey, Part};
