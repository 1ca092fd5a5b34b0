//! Pages of 8,192 bytes by their numbers, and a store that commits changes of them together; rows by their numbers.
#![tactic(auto)]

mod bitmap;
mod error;
mod free;
mod free_list;
mod header;
mod history;
mod laws;
mod memory;
mod page;
mod row;
mod rows;
mod steps;
mod store;
mod table;

pub use bitmap::Bitmap;
pub use error::PageError;
pub use free::{free_page, next_free};
pub use header::{empty_catalog, first_free, header_page, set_count, set_first_free};
pub use laws::{empty_database, lacks_none};
pub use memory::MemoryPages;
pub use page::Page;
pub use row::RowRef;
pub use rows::Rows;
pub use steps::Steps;
pub use store::{Pages, Store};
