//! GiST operator classes of sets: hstore and int4[].
#![tactic(auto)]

mod distance;
mod hstore_class;
mod hstore_query;
mod hstore_tests;
mod int_query;
mod intbig_class;
mod intbig_tests;
mod pair_signing;
mod signing;

pub use hstore_class::HstoreClass;
pub use hstore_query::HstoreQuery;
pub use int_query::IntQuery;
pub use intbig_class::IntbigClass;
