//! The GIN operator class of hstore: gin_hstore_ops.
#![tactic(auto)]

mod hstore_class;
mod hstore_query;
mod items_of_maps;
mod lengths;
mod tests_of_queries;

pub use hstore_class::GinHstoreClass;
pub use hstore_query::HstoreQuery;
