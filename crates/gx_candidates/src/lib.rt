//! Which rows an index of each operator class finds, and the classes' queries.
#![tactic(auto)]

mod items;
mod laws;
mod scalars;
mod sets;

pub use items::{array_query, gin_map_query, json_path_query, json_query, numbers_query};
pub use laws::{candidates_see, questions_are_asked, questions_are_valid};
pub use scalars::{inet_query, range_query, scalar_query};
pub use sets::{map_query, path_query, set_query};
