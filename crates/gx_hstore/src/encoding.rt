//! The bytes of a map in a row.

ghost use Rattle.std.specs.Prelude.{◌≡◌, ℕ, List, All, OnOk, IfOk, MatchOption, IsTrue, ◌↔◌, option_map, IsUtf8, Option};
ghost use Rattle.gx_hstore.specs.Map.{Pair, IsTextPair, IsHstore};
ghost use Rattle.gx_hstore.specs.Encoding.{TakesEntry, IsEncoded, AppendsEncoded, DecodesTo};
ghost use Rattle.gx_hstore.specs.Steps.{TakesField, TakesValue, AppendsEntry};

use crate::hstore::{Entry, Hstore};
use crate::order::is_map;
use gx_bytes::{Bytes, NoMemory, behind_byte, field, push_field};
use std::alloc::Global;
use std::str;

impl Hstore {
    /// Appends the bytes of the map in a row: for each pair its key as a field, and byte 0 for NULL, or byte 1 and
    /// the value as a field.
    pub fn encode(&self, to: &mut Bytes) -> Result<(), NoMemory>
        ensures { OnOk result (AppendsEncoded to.old to.new self.now) }
    {
        for pair in self.pairs() {
            encode_pair(pair, to)?;
        }
        Ok(())
    }

    /// The map whose bytes these are; None where no valid map has them.
    pub fn decode(alloc: Global, bytes: &[u8]) -> Result<Option<Hstore>, NoMemory>
        ensures { DecodesTo bytes.now result }
    {
        let Some(pairs) = entries_of(alloc, bytes)? else {
            return Ok(None);
        };
        if !is_hstore(pairs.as_slice()) {
            return Ok(None);
        }
        Ok(Some(Hstore::from_pairs(pairs)))
    }
}

fn encode_pair(pair: &Entry, to: &mut Bytes) -> Result<(), NoMemory>
    ensures { OnOk result (AppendsEntry to.old to.new pair.now) }
{
    push_field(to, pair.0.as_slice())?;
    match &pair.1 {
        Some(value) => {
            to.push(1)?;
            push_field(to, value.as_slice())
        }
        None => to.push(0),
    }
}

/// The pairs in the order of the bytes.
fn entries_of(alloc: Global, bytes: &[u8]) -> Result<Option<Vec<Entry>>, NoMemory>
    ensures { IfOk result (λ r. MatchOption r ((pairs : List Pair) → IsEncoded bytes.now pairs → ⊥) (λ v. IsEncoded bytes.now v.items)) }
{
    let mut pairs = Vec::new(alloc);
    let mut rest = bytes;
    'entries: while !rest.is_empty() {
        let Some((pair, after)) = take_entry(alloc, rest)? else {
            return Ok(None);
        };
        pairs.push(pair)?;
        rest = after;
    }
    Ok(Some(pairs))
}

/// The pair in front, and what stands behind it.
fn take_entry(alloc: Global, bytes: &[u8]) -> Result<Option<(Entry, &[u8])>, NoMemory>
    ensures { IfOk result (λ r. MatchOption r ((pair : Pair) (rest : List ℕ) → TakesEntry bytes.now pair rest → ⊥) (λ x. TakesEntry bytes.now x.0 x.1.now)) }
{
    let Some((key, behind_key)) = take_field(bytes) else {
        return Ok(None);
    };
    let Some((value, rest)) = take_value(behind_key) else {
        return Ok(None);
    };
    let key = Bytes::from_slice(alloc, key)?;
    let value = match value {
        Some(bytes) => Some(Bytes::from_slice(alloc, bytes)?),
        None => None,
    };
    Ok(Some(((key, value), rest)))
}

/// The value in front, None for NULL, and what stands behind it.
fn take_value(bytes: &[u8]) -> Option<(Option<&[u8]>, &[u8])>
    ensures { MatchOption result ((value : Option (List ℕ)) (rest : List ℕ) → TakesValue bytes.now value rest → ⊥) (λ x. TakesValue bytes.now (option_map (λ v. v.now) x.0) x.1.now) }
{
    if let Some(rest) = behind_byte(bytes, 0) {
        return Some((None, rest));
    }
    let (value, rest) = take_field(behind_byte(bytes, 1)?)?;
    Some((Some(value), rest))
}

/// The part of the field in front, and what stands behind it.
fn take_field(bytes: &[u8]) -> Option<(&[u8], &[u8])>
    ensures { MatchOption result ((part rest : List ℕ) → TakesField bytes.now part rest → ⊥) (λ x. TakesField bytes.now x.0.now x.1.now) }
{
    let (part, len) = field(bytes)?;
    let (_, rest) = bytes.split_at(len);
    Some((part, rest))
}

/// Whether the keys rise, and keys and values are UTF-8.
fn is_hstore(pairs: &[Entry]) -> bool
    ensures { IsTrue result ↔ IsHstore pairs.now }
{
    is_map(pairs) && are_texts(pairs)
}

/// Whether each key and value is UTF-8.
fn are_texts(pairs: &[Entry]) -> bool
    ensures { IsTrue result ↔ All IsTextPair pairs.now }
{
    for pair in pairs {
        if !is_text_pair(pair) {
            return false;
        }
    }
    true
}

fn is_text_pair(pair: &Entry) -> bool
    ensures { IsTrue result ↔ IsTextPair pair.now }
{
    match &pair.1 {
        Some(value) => is_text(pair.0.as_slice()) && is_text(value.as_slice()),
        None => is_text(pair.0.as_slice()),
    }
}

fn is_text(bytes: &[u8]) -> bool
    ensures { IsTrue result ↔ IsUtf8 bytes.now }
{
    str::from_utf8(bytes).is_ok()
}
