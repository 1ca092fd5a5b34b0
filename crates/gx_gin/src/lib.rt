//! What a GIN operator class owes, as laws.
//!
//! A class takes a value apart into items, and says of a query which items it wants, which rows it then looks at, and what their items say
//! of the query (PostgreSQL 16, chapter 70, "GIN Indexes").
#![tactic(auto)]

mod class;
mod items;
mod laws;
mod strings;
mod wanted;

pub use class::GinClass;
pub use items::Items;
pub use laws::{made_rising, one_list};
pub use strings::{Part, Strings};
pub use wanted::{Mode, Wanted};
