//! GIN indexes: from the keys of an operator class's items to rising lists of rows, on pages.
#![tactic(auto)]

mod dropping;
mod gin;
mod growing;
mod inserting;
mod laws;
mod looking;
mod postings;
mod putting;
mod removing;
mod searching;

pub use gin::Gin;
pub use laws::index_stays;
