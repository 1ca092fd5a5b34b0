//! A value.

use gx_hstore::Hstore;
use gx_inet::Inet;
use gx_intarr::IntArray;
use gx_json::Json;
use gx_ltree::Path;
use gx_range::Range;
use gx_scalar::Scalar;

/// A value of some column type.
#[derive(Debug, Drop)]
pub enum Value {
    Scalar(Scalar),
    Range(Range),
    Inet(Inet),
    Path(Path),
    Hstore(Hstore),
    IntArray(IntArray),
    Json(Json),
}
