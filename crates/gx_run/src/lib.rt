//! The run of a script on a database: from the bytes of a source to the bytes that a host is answered.
#![tactic(auto)]

mod attempt;
mod desk;
mod fatal;
mod file;
mod halt;
mod init;
mod memory;
mod pieces;
mod program;
mod script;
mod stop;
mod top;
mod words;

pub use program::run;
pub use words::Command;
