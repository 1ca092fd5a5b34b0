//! A chain of slot pages, which holds a list of items.
#![tactic(auto)]

mod chain;
mod entry;
mod laws;
mod reading;
mod trail;
mod writing;

pub use chain::Chain;
pub use entry::Entry;
pub use laws::{chain_stays, empty_chain, one_chain, same_chain};
pub use reading::fetch_slots;
pub use trail::Trail;
pub use writing::{is_empty, put_slots, remove_item, replace_item};
