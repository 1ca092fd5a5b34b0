//! Indexes on pages: the rows of a column by their values, of the GiST and the GIN classes, and its NULL rows.
#![tactic(auto)]

mod indexed;
mod item_classes;
mod items;
mod kept;
mod key_classes;
mod keys;
mod nulls;

pub use indexed::Indexed;
pub use items::{ItemClass, create_items};
pub use kept::Kept;
pub use keys::{KeyClass, create_keys, drop_keys, find_keys, put_key, remove_keys};
pub use nulls::{drop_nulls, find_nulls, nulls_stay, put_null, remove_nulls};
