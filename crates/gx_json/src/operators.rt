//! The operators.

ghost use Rattle.std.specs.Prelude.{◌≡◌, All, Any, IsTrue, ◌↔◌, MatchOption};
ghost use Rattle.gx_json.specs.Tree.{data_of, items_data, members_data};
ghost use Rattle.gx_json.specs.Operators.{HasKey, SomeItem, SomeMember, Covers, CoverItems, CoverMembers, IsScalar, ContainsDocument, Contains, Has, HasAll, HasAny, Holds};
ghost use Rattle.gx_json.specs.Decisions.{holds};
ghost use Rattle.gx_json.specs.Valid.{IsStored, AreStored, IsRising, IsDocument};
ghost use Rattle.gx_json.specs.Steps.{AreMembers, Found};
ghost use Rattle.serde_json.specs.Data.{string, array, Items};

use crate::document::Json;
use gx_bytes::Bytes;
use std::cmp::Ordering;

impl Json {
    /// Whether this contains the other document (`@>`): a scalar an equal one; an array some element for each of
    /// the other's, which covers it; an object each key of the other, with a value that covers the other's. An
    /// array also contains a scalar that is one of its elements, where the array isn't itself in another.
    pub fn contains(&self, other: &Json) -> bool
        requires this_is { IsDocument (data_of self.now) }
        requires other_is { IsDocument (data_of other.now) }
        ensures relation { IsTrue result ↔ Holds (Contains (data_of other.now)) (data_of self.now) }
        ensures decision { result ≡ holds (Contains (data_of other.now)) (data_of self.now) }
    {
        is_contained(other, self)
    }

    /// Whether this is an object with this key, an array with this text as an element, or this text (`?`).
    pub fn has_key(&self, key: &[u8]) -> bool
        requires { IsDocument (data_of self.now) }
        ensures relation { IsTrue result ↔ Holds (Has key.now) (data_of self.now) }
        ensures decision { result ≡ holds (Has key.now) (data_of self.now) }
    {
        is_key(self, key)
    }

    /// Whether this has all of the keys, as [`Json::has_key`] says (`?&`).
    pub fn has_all(&self, keys: &[Bytes]) -> bool
        requires { IsDocument (data_of self.now) }
        ensures relation { IsTrue result ↔ Holds (HasAll keys.now) (data_of self.now) }
        ensures decision { result ≡ holds (HasAll keys.now) (data_of self.now) }
    {
        are_keys(self, keys)
    }

    /// Whether this has some of the keys, as [`Json::has_key`] says (`?|`).
    pub fn has_any(&self, keys: &[Bytes]) -> bool
        requires { IsDocument (data_of self.now) }
        ensures relation { IsTrue result ↔ Holds (HasAny keys.now) (data_of self.now) }
        ensures decision { result ≡ holds (HasAny keys.now) (data_of self.now) }
    {
        is_one_key(self, keys)
    }
}

fn is_contained(other: &Json, value: &Json) -> bool
    requires other_is { IsStored (data_of other.now) }
    requires value_is { IsStored (data_of value.now) }
    ensures { IsTrue result ↔ ContainsDocument (data_of value.now) (data_of other.now) }
{
    is_held(other, value) || has_scalar(value, other)
}

fn are_keys(value: &Json, keys: &[Bytes]) -> bool
    requires { IsStored (data_of value.now) }
    ensures { IsTrue result ↔ All (λ key. HasKey key (data_of value.now)) keys.now }
{
    for key in keys {
        if !is_key(value, key.as_slice()) {
            return false;
        }
    }
    true
}

fn is_one_key(value: &Json, keys: &[Bytes]) -> bool
    requires { IsStored (data_of value.now) }
    ensures { IsTrue result ↔ Any (λ key. HasKey key (data_of value.now)) keys.now }
{
    keys.iter().any(|key| is_key(value, key.as_slice()))
}

fn is_key(value: &Json, key: &[u8]) -> bool
    requires { IsStored (data_of value.now) }
    ensures { IsTrue result ↔ HasKey key.now (data_of value.now) }
{
    match value {
        Json::Text(text) => text.as_slice() == key,
        Json::List(list) => has_text(&list.items, key),
        Json::Object(pairs) => has_pair(&pairs.items, key),
        _ => false,
    }
}

fn has_text(items: &[Json], key: &[u8]) -> bool
    ensures { IsTrue result ↔ SomeItem (λ d. d ≡ string key.now) (items_data items.now) }
{
    for item in items {
        if is_text(item, key) {
            return true;
        }
    }
    false
}

fn is_text(value: &Json, key: &[u8]) -> bool
    ensures { IsTrue result ↔ (data_of value.now ≡ string key.now) }
{
    match value {
        Json::Text(text) => text.as_slice() == key,
        _ => false,
    }
}

/// The keys rise, so each step halves those that are left.
fn has_pair(pairs: &[(Bytes, Json)], key: &[u8]) -> bool
    requires { IsRising (members_data pairs.now) }
    ensures { IsTrue result ↔ SomeMember key.now (λ _. Unit {0}) (members_data pairs.now) }
{
    match pairs.binary_search_by(|pair| pair.0.as_slice().cmp(key)) {
        Ok(_) => true,
        Err(_) => false,
    }
}

/// Whether the value is an array with the other, a scalar, as an element.
fn has_scalar(value: &Json, other: &Json) -> bool
    ensures { IsTrue result ↔ (IsScalar (data_of other.now) × ((vs : Items) × (data_of value.now ≡ array vs) × SomeItem (λ d. d ≡ data_of other.now) vs)) }
{
    match value {
        Json::List(list) => has_equal(&list.items, other),
        _ => false,
    }
}

fn has_equal(items: &[Json], other: &Json) -> bool
    ensures { IsTrue result ↔ (IsScalar (data_of other.now) × SomeItem (λ d. d ≡ data_of other.now) (items_data items.now)) }
{
    for item in items {
        if equal_scalars(item, other) {
            return true;
        }
    }
    false
}

fn equal_scalars(a: &Json, b: &Json) -> bool
    ensures { IsTrue result ↔ (IsScalar (data_of b.now) × (data_of a.now ≡ data_of b.now)) }
{
    match (a, b) {
        (Json::Null, Json::Null) => true,
        (Json::Bool(a), Json::Bool(b)) => a == b,
        (Json::Number(a), Json::Number(b)) => a == b,
        (Json::Text(a), Json::Text(b)) => a.as_slice() == b.as_slice(),
        _ => false,
    }
}

/// Whether the value covers the other.
#[cycle(held)]
fn is_held(other: &Json, value: &Json) -> bool
    requires other_is { IsStored (data_of other.now) }
    requires value_is { IsStored (data_of value.now) }
    ensures { IsTrue result ↔ Covers (data_of value.now) (data_of other.now) }
{
    match (other, value) {
        (Json::List(others), Json::List(list)) => are_held(&others.items, &list.items),
        (Json::Object(others), Json::Object(pairs)) => pairs_held(&others.items, &pairs.items),
        _ => equal_scalars(value, other),
    }
}

#[cycle(held)]
fn are_held(others: &[Json], items: &[Json]) -> bool
    requires others_are { AreStored (items_data others.now) }
    requires items_are { AreStored (items_data items.now) }
    ensures { IsTrue result ↔ CoverItems (items_data items.now) (items_data others.now) }
{
    for other in others {
        if !is_held_by_some(other, items) {
            return false;
        }
    }
    true
}

#[cycle(held)]
fn is_held_by_some(other: &Json, items: &[Json]) -> bool
    requires other_is { IsStored (data_of other.now) }
    requires items_are { AreStored (items_data items.now) }
    ensures { IsTrue result ↔ SomeItem (λ v. Covers v (data_of other.now)) (items_data items.now) }
{
    for item in items {
        if is_held(other, item) {
            return true;
        }
    }
    false
}

/// Both have rising keys, so each key is sought behind the one before.
#[cycle(held)]
fn pairs_held(others: &[(Bytes, Json)], pairs: &[(Bytes, Json)]) -> bool
    requires others_are { AreMembers (members_data others.now) }
    requires pairs_are { AreMembers (members_data pairs.now) }
    ensures { IsTrue result ↔ CoverMembers (members_data pairs.now) (members_data others.now) }
{
    let mut rest = pairs;
    for other in others {
        let Some((value, behind)) = sought(rest, other.0.as_slice()) else {
            return false;
        };
        if !is_held(&other.1, value) {
            return false;
        }
        rest = behind;
    }
    true
}

/// The value of the key among rising ones, and the members behind it.
fn sought<'a>(pairs: &'a [(Bytes, Json)], key: &[u8]) -> Option<(&'a Json, &'a [(Bytes, Json)])>
    requires { AreMembers (members_data pairs.now) }
    ensures { MatchOption result (SomeMember key.now (λ _. Unit {0}) (members_data pairs.now) → ⊥) (λ x. Found key.now (members_data pairs.now) (data_of x.0.now) (members_data x.1.now)) }
{
    let mut rest = pairs;
    while let [pair, behind @ ..] = rest {
        match pair.0.as_slice().cmp(key) {
            Ordering::Less => rest = behind,
            Ordering::Equal => return Some((&pair.1, behind)),
            Ordering::Greater => return None,
        }
    }
    None
}
