//! The log: records of page images, each whole or absent after a stop at any moment.
#![tactic(auto)]

mod error;
mod gate;
mod log;
mod part;
mod replay;
mod scan;
mod write;

pub use error::LogError;
pub use log::{Images, Log, one_meaning};
