//! A map.

ghost use Rattle.std.specs.Prelude.{◌≡◌, ℕ, ◌≤◌, List, Option, Some, length, slice_get, option_map, MatchOption, IfOk};
ghost use Rattle.gx_hstore.specs.Map.{IsMap};

use gx_bytes::{Bytes, NoMemory};
use std::alloc::Global;
use std::marker::Model;

/// A key with its value; None is NULL.
pub type Entry = (Bytes, Option<Bytes>);

/// A finite map from keys to values or NULL, seen as its pairs in the order in which they are printed:
/// shorter keys first, then by bytes. Valid where each key and value is UTF-8.
#[derive(Debug, Drop)]
pub struct Hstore {
    pairs: Vec<Entry>,
}

impl Model for Hstore {
    ghost Value = { List (List ℕ × Option (List ℕ)) };

    ghost view = { λ h. h.pairs.items };

    ghost invariant = { λ h. IsMap h.pairs.items };
}

impl Hstore {
    /// The map of these pairs.
    pub(crate) fn from_pairs(pairs: Vec<Entry>) -> Hstore
        requires { IsMap pairs.items }
        ensures { result ≡ pairs.items }
    {
        Hstore { pairs }
    }

    /// The pairs in the order in which they are printed.
    pub fn pairs(&self) -> &[Entry]
        ensures is { result.now ≡ self.now }
        ensures map { IsMap self.now }
    {
        self.pairs.as_slice()
    }

    /// How many keys it has.
    pub fn count(&self) -> usize
        ensures { result ≡ length self.now }
    {
        self.pairs.len()
    }

    /// The key at this place in the order in which pairs are printed, counted from 0, with its value,
    /// None for NULL. None from the count on.
    pub fn pair(&self, at: usize) -> Option<(&[u8], Option<&[u8]>)>
        ensures { MatchOption result (length self.now ≤ at) (λ p. slice_get self.now at ≡ Some (p.0.now, option_map (λ v. v.now) p.1)) }
    {
        let (key, value) = self.pairs.get(at)?;
        Some((key.as_slice(), value_bytes(value)))
    }

    /// The same map once more.
    pub fn copy(&self, alloc: Global) -> Result<Hstore, NoMemory>
        ensures { IfOk result (λ made. made ≡ self.now) }
    {
        Ok(Hstore::from_pairs(copied_pairs(alloc, self.pairs())?))
    }
}

fn copied_pairs(alloc: Global, pairs: &[Entry]) -> Result<Vec<Entry>, NoMemory>
    ensures { IfOk result (λ made. made.items ≡ pairs.now) }
{
    let mut copies = Vec::with_capacity(alloc, pairs.len())?;
    for pair in pairs {
        copies.push(copied(alloc, pair)?)?;
    }
    Ok(copies)
}

fn copied(alloc: Global, pair: &Entry) -> Result<Entry, NoMemory>
    ensures { IfOk result (λ made. made ≡ pair.now) }
{
    let key = pair.0.copy(alloc)?;
    let value = match &pair.1 {
        Some(bytes) => Some(bytes.copy(alloc)?),
        None => None,
    };
    Ok((key, value))
}

/// The value's bytes.
pub(crate) fn value_bytes(value: &Option<Bytes>) -> Option<&[u8]>
    ensures { option_map (λ bytes. bytes.now) result ≡ value.now }
{
    match value {
        Some(bytes) => Some(bytes.as_slice()),
        None => None,
    }
}
