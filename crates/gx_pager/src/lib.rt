//! A store over a host: pages of the disk, with a log of changes.
#![tactic(auto)]

mod cache;
mod checkpoint;
mod commit;
mod copies;
mod format;
mod free_list;
mod header;
mod keeper;
mod laws;
mod layers;
mod open;
mod pager;
mod places;
mod reads;

pub use header::Header;
pub use keeper::Keeper;
pub use laws::one_reason;
pub use open::{Opened, read_file};
pub use pager::Pager;
