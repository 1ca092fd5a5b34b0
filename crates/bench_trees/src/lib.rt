//! A benchmark of trees of the keys of operator classes, on pages in memory.
#![tactic(auto)]

mod filling;
mod measure;
mod samples;

pub use measure::trees;
