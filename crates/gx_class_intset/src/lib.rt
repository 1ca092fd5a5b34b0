//! The GiST operator class of int4[] by intervals.
#![tactic(auto)]

mod class;
mod interval;
mod join;
mod keys;
mod laws;
mod order;
mod points;
mod put;
mod read;
mod spell;
mod tests_of_keys;

pub use class::IntClass;
pub use interval::{IntKey, Interval, Intervals};
pub use laws::{least_gaps_are_joined, no_number_is_added};
