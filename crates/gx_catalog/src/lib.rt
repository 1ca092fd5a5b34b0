//! The catalog: the tables and the indexes of a database, in a chain of slot pages.
#![tactic(auto)]

mod catalog;
mod info;
mod laws;
mod lists;
mod lookup;
mod memory;
mod place;
mod reading;
mod validity;
mod writing;

pub use catalog::Catalog;
pub use info::{IndexInfo, TableInfo};
pub use laws::{
    catalog_stays, empty_catalog, found_among, none_counted, one_catalog, one_more_index,
    one_more_table, own_found, same_catalog,
};
