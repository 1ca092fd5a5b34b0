//! GIN operator classes of jsonb: jsonb_ops and jsonb_path_ops.
#![tactic(auto)]

mod items_of_documents;
mod json_query;
mod jsonb_class;
mod path_class;
mod paths;
mod tests_of_queries;

pub use json_query::JsonQuery;
pub use jsonb_class::JsonbClass;
pub use path_class::JsonbPathClass;
