//! Slot pages: a page as a list of items.
#![tactic(auto)]

mod checking;
mod laws;
mod layout;
mod slot_page;
mod view;

pub use laws::one_page;
pub use layout::NoRoom;
pub use slot_page::SlotPage;
pub use view::SlotView;
