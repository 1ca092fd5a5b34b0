//! The order of keys.

ghost use Rattle.std.specs.Prelude.{◌≡◌, IsTrue, ◌↔◌};
ghost use Rattle.std.specs.declared.cmp.Ordering.{Ordering};
ghost use Rattle.gx_hstore.specs.Map.{IsMap, key_order};

use crate::hstore::Entry;
use std::cmp::Ordering;

/// Shorter keys first, then by bytes.
pub(crate) fn key_order(a: &[u8], b: &[u8]) -> Ordering
    ensures { result ≡ key_order a.now b.now }
{
    a.len().cmp(&b.len()).then_with(|| a.cmp(b))
}

/// Whether each key stands before the next one.
pub(crate) fn is_map(pairs: &[Entry]) -> bool
    ensures { IsTrue result ↔ IsMap pairs.now }
{
    for at in 1..pairs.len() {
        if !stands_before(&pairs[at - 1], &pairs[at]) {
            return false;
        }
    }
    true
}

fn stands_before(a: &Entry, b: &Entry) -> bool
    ensures { IsTrue result ↔ (key_order a.now.0 b.now.0 ≡ Ordering.Less) }
{
    matches!(key_order(a.0.as_slice(), b.0.as_slice()), Ordering::Less)
}
