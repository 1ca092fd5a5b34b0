//! The operators on maps.

ghost use Rattle.std.specs.Prelude.{◌≡◌, All, None, Some, MatchOption, IsTrue, ◌↔◌};
ghost use Rattle.gx_hstore.specs.Map.{IsMap, find};
ghost use Rattle.gx_hstore.specs.Operators.{Contains, Has, HasAll, HasAny, Holds};
ghost use Rattle.gx_hstore.specs.Decisions.{holds};

use crate::hstore::{Entry, Hstore};
use crate::order::key_order;
use gx_bytes::Bytes;

impl Hstore {
    /// Whether the map has each key of the other one with an equal value (`@>`); NULL equals NULL alone.
    pub fn contains(&self, other: &Hstore) -> bool
        ensures relation { IsTrue result ↔ Holds (Contains other.now) self.now }
        ensures decision { result ≡ holds (Contains other.now) self.now }
    {
        holds_all(self.pairs(), other.pairs())
    }

    /// Whether the map has the key (`?`).
    pub fn has(&self, key: &[u8]) -> bool
        ensures relation { IsTrue result ↔ Holds (Has key.now) self.now }
        ensures decision { result ≡ holds (Has key.now) self.now }
    {
        is_key(self.pairs(), key)
    }

    /// Whether the map has all of the keys (`?&`).
    pub fn has_all(&self, keys: &[Bytes]) -> bool
        ensures relation { IsTrue result ↔ Holds (HasAll keys.now) self.now }
        ensures decision { result ≡ holds (HasAll keys.now) self.now }
    {
        are_keys(self.pairs(), keys)
    }

    /// Whether the map has some of the keys (`?|`).
    pub fn has_any(&self, keys: &[Bytes]) -> bool
        ensures relation { IsTrue result ↔ Holds (HasAny keys.now) self.now }
        ensures decision { result ≡ holds (HasAny keys.now) self.now }
    {
        is_one_key(self.pairs(), keys)
    }
}

fn is_key(pairs: &[Entry], key: &[u8]) -> bool
    requires { IsMap pairs.now }
    ensures { IsTrue result ↔ Holds (Has key.now) pairs.now }
{
    find(pairs, key).is_some()
}

fn are_keys(pairs: &[Entry], keys: &[Bytes]) -> bool
    requires { IsMap pairs.now }
    ensures { IsTrue result ↔ Holds (HasAll keys.now) pairs.now }
{
    keys.iter().all(|key| is_key(pairs, key.as_slice()))
}

fn is_one_key(pairs: &[Entry], keys: &[Bytes]) -> bool
    requires { IsMap pairs.now }
    ensures { IsTrue result ↔ Holds (HasAny keys.now) pairs.now }
{
    keys.iter().any(|key| is_key(pairs, key.as_slice()))
}

/// The value of the key, with None for NULL; None where no pair has the key.
fn find<'a>(pairs: &'a [Entry], key: &[u8]) -> Option<&'a Option<Bytes>>
    requires { IsMap pairs.now }
    ensures { MatchOption result (find key.now pairs.now ≡ None) (λ value. find key.now pairs.now ≡ Some value.now) }
{
    match pairs.binary_search_by(|pair| key_order(pair.0.as_slice(), key)) {
        Ok(at) => Some(&pairs[at].1),
        Err(_) => None,
    }
}

/// Whether the pairs have the key of each of these with its value.
fn holds_all(pairs: &[Entry], others: &[Entry]) -> bool
    requires { IsMap pairs.now }
    ensures { IsTrue result ↔ All (λ p. find p.0 pairs.now ≡ Some p.1) others.now }
{
    others.iter().all(|pair| holds(pairs, pair))
}

/// Whether the pairs have the key of this one with its value.
fn holds(pairs: &[Entry], pair: &Entry) -> bool
    requires { IsMap pairs.now }
    ensures { IsTrue result ↔ (find pair.now.0 pairs.now ≡ Some pair.now.1) }
{
    match find(pairs, pair.0.as_slice()) {
        Some(value) => same_value(value, &pair.1),
        None => false,
    }
}

fn same_value(a: &Option<Bytes>, b: &Option<Bytes>) -> bool
    ensures { IsTrue result ↔ (a.now ≡ b.now) }
{
    match (a, b) {
        (None, None) => true,
        (Some(x), Some(y)) => x.as_slice() == y.as_slice(),
        _ => false,
    }
}
