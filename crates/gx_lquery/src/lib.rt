//! Queries over label paths: lquery.
#![tactic(auto)]

mod laws;
mod operators;
mod query;
mod text;
mod variant;

pub use laws::{matching_decided, one_answer, spelled_is_valid};
pub use query::{Lqueries, Lquery, LqueryItem, LqueryItems};
pub use variant::{Variant, Variants};
