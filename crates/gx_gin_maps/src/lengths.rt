//! Which items are shortened.

ghost use Rattle.std.specs.Prelude.{◌≡◌, ◌+◌, length, nat_lt};
ghost use Rattle.std.specs.List.{list_any};
ghost use Rattle.gx_bytes.specs.Varints.{varint_bytes};
ghost use Rattle.gx_hstore_items.specs.Items.{key_item};
ghost use Rattle.gx_gin_items.specs.Items.{is_long};
ghost use Rattle.gx_gin_maps.specs.Tests.{pair_item, has_long};

use crate::HstoreQuery;
use gx_bytes::Bytes;
use gx_hstore::Entry;

/// The longest item, in bytes.
const LONGEST: usize = 1_900;

/// Tells whether a wanted item is shortened.
pub fn has_long(query: &HstoreQuery) -> bool
    ensures { result ≡ has_long query.now }
{
    match query {
        HstoreQuery::Contains(other) => has_long_pair(other.pairs()),
        HstoreQuery::Has(key) => is_long_key(key.as_slice()),
        HstoreQuery::HasAll(keys) | HstoreQuery::HasAny(keys) => has_long_key(keys.as_slice()),
    }
}

fn has_long_pair(pairs: &[Entry]) -> bool
    ensures { result ≡ list_any (λ pair. is_long (pair_item pair)) pairs.now }
{
    pairs.iter().any(is_long_pair)
}

fn has_long_key(keys: &[Bytes]) -> bool
    ensures { result ≡ list_any (λ key. is_long (key_item key)) keys.now }
{
    keys.iter().any(|key| is_long_key(key.as_slice()))
}

fn is_long_key(key: &[u8]) -> bool
    ensures { result ≡ is_long (key_item key.now) }
{
    key.len() >= LONGEST
}

fn is_long_pair(pair: &Entry) -> bool
    ensures { result ≡ is_long (pair_item pair.now) }
{
    match &pair.1 {
        None => pair.0.len() >= LONGEST,
        Some(value) => is_long_value(pair.0.len(), value.len()),
    }
}

/// Tells whether the item of a key with its value is shortened, by their lengths. The length of a key of up to 1,900 bytes takes one or two.
fn is_long_value(key: usize, value: usize) -> bool
    ensures { result ≡ nat_lt 1900 (length (varint_bytes key) + key + value + 1) }
{
    if key > LONGEST || value > LONGEST {
        return true;
    }
    let count = if key < 128 { 1 } else { 2 };
    1 + count + key + value > LONGEST
}
