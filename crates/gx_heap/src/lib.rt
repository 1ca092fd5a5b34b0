//! A heap: the rows of a table on pages, in a chain of slot pages.
#![tactic(auto)]

mod heap;
mod item;
mod laws;
mod reading;
mod removal;
mod vacuum;

pub use heap::Heap;
pub use laws::{heap_ends, heap_same, heap_stays, one_heap, one_run_a_page, whole_scan};
