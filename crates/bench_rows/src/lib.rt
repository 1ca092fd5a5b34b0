//! Benchmarks of rows on pages in memory, and on those of a file.
#![tactic(auto)]

mod adding;
mod measure;
mod reading;

pub use measure::rows;
