//! The disk and the host: what the outside promises, in memory and over files.
#![tactic(auto)]

mod area;
mod areas;
mod disk;
mod event;
mod files;
mod image;
mod memory;
mod replay;

pub use area::Area;
pub use disk::{Disk, Host};
pub use files::FilesHost;
pub use image::{Image, Pick};
pub use memory::MemoryHost;
