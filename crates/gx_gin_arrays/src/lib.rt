//! GIN operator classes of int4[]: array_ops and gin__int_ops.
#![tactic(auto)]

mod array_class;
mod int_class;
mod int_query;
mod numbers;
mod placed;
mod tests_of_queries;

pub use array_class::ArrayClass;
pub use int_class::GinIntClass;
pub use int_query::IntQuery;
pub use placed::{PlacedFormula, PlacedQuery};
