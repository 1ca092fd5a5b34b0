//! The map of a list of pairs.

ghost use Rattle.std.specs.Prelude.{IfOk};
ghost use Rattle.gx_hstore.specs.Map.{IsMapOf};

use crate::hstore::{Entry, Hstore};
use crate::order::key_order;
use gx_bytes::NoMemory;

/// The map of the pairs, with the first of those that have equal keys.
pub(crate) fn first_of_each(pairs: Vec<Entry>) -> Result<Hstore, NoMemory>
    ensures { IfOk result (IsMapOf pairs.items) }
{
    let mut sorted = pairs;
    sorted.sort_by(|a, b| key_order(a.0.as_slice(), b.0.as_slice()))?;
    sorted.dedup_by(|a, b| a.0.as_slice() == b.0.as_slice());
    Ok(Hstore::from_pairs(sorted))
}
