//! What a statement says of a table's columns: those that it makes or names, the rows that it gives, and the lines of rows.
#![tactic(auto)]

mod casts;
mod columns;
mod line;
mod places;
mod rows;
mod values;

pub use columns::new_columns;
pub use line::push_row_line;
pub use places::{Places, asked_places, listed_places};
pub use rows::{RowsBytes, row_bytes};
