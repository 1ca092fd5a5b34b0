//! Where the bytes of a script come from: a list in memory, or standard input.
#![tactic(auto)]

mod failed;
mod memory;
mod source;
mod standard;

pub use failed::Failed;
pub use memory::MemorySource;
pub use source::Source;
pub use standard::StdSource;
