//! Queries over documents.

use gx_bytes::Bytes;
use gx_intarr::Texts;
use gx_json::Json;

/// An operator of jsonb with its operand: `@>` and a document, `?` and a key, `?&` and `?|` and keys.
#[derive(Debug, Drop)]
pub enum JsonQuery {
    Contains(Json),
    Has(Bytes),
    HasAll(Texts),
    HasAny(Texts),
}
