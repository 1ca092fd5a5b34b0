//! Queries over maps.

use gx_bytes::Bytes;
use gx_hstore::Hstore;
use gx_intarr::Texts;

/// An operator of hstore with its operand: `@>` and a map, `?` and a key, `?&` and `?|` and keys.
#[derive(Debug, Drop)]
pub enum HstoreQuery {
    Contains(Hstore),
    Has(Bytes),
    HasAll(Texts),
    HasAny(Texts),
}
