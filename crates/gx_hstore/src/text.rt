//! The reader of maps.

ghost use Rattle.std.specs.Prelude.{◌≡◌, ◌≢◌, ℕ, List, Ok, IfOk, MatchOption, ◌∷◌};
ghost use Rattle.gx_hstore.specs.Map.{IsHstore, Pair};
ghost use Rattle.gx_hstore.specs.Text.{TakesPair, SpellsPairs, SpellsHstore, AnswersHstore};

use crate::first::first_of_each;
use crate::hstore::{Entry, Hstore};
use crate::strings::take_string;
use gx_bytes::{NoMemory, ValueError, behind_byte, without_blanks};
use std::alloc::Global;

impl Hstore {
    /// Reads pairs `key => value` with commas between them, and keeps the first of equal keys. A key or a value is in
    /// double quotes, or a word; in both `\` and a character stand for that character. A value that is a word spelling
    /// null in any case is NULL. NoValue for every other text, of which white space alone is one.
    pub fn read(alloc: Global, text: &str) -> Result<Hstore, ValueError>
        ensures answer { AnswersHstore text.now result }
        ensures valid { IfOk result IsHstore }
    {
        match hstore_of(alloc, text.as_bytes()) {
            Ok(Some(hstore)) => Ok(hstore),
            Ok(None) => Err(ValueError::NoValue),
            Err(_) => Err(ValueError::Memory),
        }
    }
}

fn hstore_of(alloc: Global, text: &[u8]) -> Result<Option<Hstore>, NoMemory>
    ensures { IfOk result (λ r. MatchOption r ((hstore : List Pair) → SpellsHstore text.now hstore → ⊥) (SpellsHstore text.now)) }
{
    let Some(pairs) = pairs_of(alloc, text)? else {
        return Ok(None);
    };
    if pairs.is_empty() && !text.is_empty() {
        return Ok(None);
    }
    Ok(Some(first_of_each(pairs)?))
}

/// The pairs in the order of the text.
fn pairs_of(alloc: Global, text: &[u8]) -> Result<Option<Vec<Entry>>, NoMemory>
    ensures { IfOk result (λ r. MatchOption r ((pairs : List Pair) → SpellsPairs text.now pairs → ⊥) (λ v. SpellsPairs text.now v.items)) }
{
    let mut pairs = Vec::new(alloc);
    let mut rest = text;
    'pairs: while !without_blanks(rest).is_empty() {
        let Some((pair, after)) = take_pair(alloc, rest)? else {
            return Ok(None);
        };
        pairs.push(pair)?;
        if after.is_empty() {
            return Ok(Some(pairs));
        }
        let Some(more) = behind_byte(after, b',') else {
            return Ok(None);
        };
        rest = more;
    }
    Ok(Some(pairs))
}

/// The pair in front with the white space round it, and what stands behind it.
fn take_pair(alloc: Global, text: &[u8]) -> Result<Option<(Entry, &[u8])>, NoMemory>
    ensures { IfOk result (λ r. MatchOption r ((pair : Pair) (rest : List ℕ) → TakesPair text.now pair rest → ⊥) (λ x. TakesPair text.now x.0 x.1.now)) }
{
    let Some((key, behind_key)) = take_string(alloc, without_blanks(text))? else {
        return Ok(None);
    };
    let Some(behind_arrow) = behind_arrow(without_blanks(behind_key)) else {
        return Ok(None);
    };
    let Some((value, behind_value)) = take_string(alloc, without_blanks(behind_arrow))? else {
        return Ok(None);
    };
    let pair = (key.bytes, value.into_value());
    Ok(Some((pair, without_blanks(behind_value))))
}

/// What stands behind an arrow at the front.
fn behind_arrow(text: &[u8]) -> Option<&[u8]>
    ensures { MatchOption result ((rest : List ℕ) → text.now ≢ 61 ∷ 62 ∷ rest) (λ rest. text.now ≡ 61 ∷ 62 ∷ rest.now) }
{
    match text {
        [b'=', b'>', rest @ ..] => Some(rest),
        _ => None,
    }
}
