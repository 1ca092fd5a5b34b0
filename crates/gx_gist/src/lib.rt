//! What a GiST operator class owes, as laws, and how a full page is split.
//!
//! A class gives each value a leaf key, unites keys, and tests a key against a query. From its laws alone a tree of any depth finds
//! every row that a query may hold of (PostgreSQL 16, chapter 68, "GiST Indexes").
#![tactic(auto)]

mod class;
mod lists;
mod on_bytes;
mod order;
mod split;
mod test;

pub use class::GistClass;
pub use lists::{Items, Keys, Places, Sizes};
pub use on_bytes::OnBytes;
pub use order::{Ranked, places_by_rank};
pub use split::{Sides, picksplit};
pub use test::Test;
