//! Strings in a text: in double quotes, or words.

ghost use Rattle.std.specs.Prelude.{◌≡◌, ◌≢◌, ℕ, Bool, true, false, List, ◌∷◌, IfOk, MatchOption, IsTrue, ◌↔◌};
ghost use Rattle.gx_hstore.specs.Text.{ends, Stops, TakesSigns, TakesString, value_of};
ghost use Rattle.gx_hstore.specs.Steps.{TakesSign};

use gx_bytes::{Bytes, NoMemory, behind_byte};
use std::alloc::Global;

/// The bytes that a string stands for, and whether it was in quotes.
#[derive(Debug, Drop)]
pub(crate) struct Piece {
    pub bytes: Bytes,
    pub quoted: bool,
}

impl Piece {
    /// The value that it stands for: a word that spells null in any case stands for NULL.
    pub(crate) fn into_value(self) -> Option<Bytes>
        ensures { result ≡ value_of self.quoted self.bytes }
    {
        if !self.quoted && self.bytes.as_slice().eq_ignore_ascii_case(b"null") {
            None
        } else {
            Some(self.bytes)
        }
    }
}

/// The string in front, and what stands behind it.
pub(crate) fn take_string(alloc: Global, text: &[u8]) -> Result<Option<(Piece, &[u8])>, NoMemory>
    ensures { IfOk result (λ r. MatchOption r ((quoted : Bool) (bytes rest : List ℕ) → TakesString quoted text.now bytes rest → ⊥) (λ x. TakesString x.0.quoted text.now x.0.bytes x.1.now)) }
{
    match behind_byte(text, b'"') {
        Some(inner) => take_quoted(alloc, inner),
        None => take_word(alloc, text),
    }
}

/// Signs up to a closing quote, and what stands behind it.
fn take_quoted(alloc: Global, inner: &[u8]) -> Result<Option<(Piece, &[u8])>, NoMemory>
    ensures { IfOk result (λ r. MatchOption r ((bytes rest : List ℕ) → TakesSigns true inner.now bytes (34 ∷ rest) → ⊥) (λ x. (x.0.quoted ≡ true) × TakesSigns true inner.now x.0.bytes (34 ∷ x.1.now))) }
{
    let Some((bytes, after)) = take_signs(alloc, inner, true)? else {
        return Ok(None);
    };
    let Some(rest) = behind_byte(after, b'"') else {
        return Ok(None);
    };
    let piece = Piece {
        bytes,
        quoted: true,
    };
    Ok(Some((piece, rest)))
}

/// A word of one sign or more, and what stands behind it.
fn take_word(alloc: Global, text: &[u8]) -> Result<Option<(Piece, &[u8])>, NoMemory>
    ensures { IfOk result (λ r. MatchOption r ((bytes rest : List ℕ) → TakesString false text.now bytes rest → ⊥) (λ x. (x.0.quoted ≡ false) × TakesString false text.now x.0.bytes x.1.now)) }
{
    let Some((bytes, rest)) = take_signs(alloc, text, false)? else {
        return Ok(None);
    };
    if bytes.is_empty() {
        return Ok(None);
    }
    let piece = Piece {
        bytes,
        quoted: false,
    };
    Ok(Some((piece, rest)))
}

/// All signs in front, and what stands behind them. None where the text ends behind a backslash.
fn take_signs(alloc: Global, text: &[u8], quoted: bool) -> Result<Option<(Bytes, &[u8])>, NoMemory>
    ensures { IfOk result (λ r. MatchOption r ((bytes rest : List ℕ) → TakesSigns quoted text.now bytes rest → ⊥) (λ x. TakesSigns quoted text.now x.0 x.1.now)) }
{
    let mut bytes = Bytes::new(alloc);
    let mut rest = text;
    while let Some((byte, after)) = take_sign(rest, quoted) {
        bytes.push(byte)?;
        rest = after;
    }
    if !stops(rest, quoted) {
        return Ok(None);
    }
    Ok(Some((bytes, rest)))
}

/// The byte that the sign in front stands for, and what stands behind it.
fn take_sign(text: &[u8], quoted: bool) -> Option<(u8, &[u8])>
    ensures { MatchOption result ((byte : ℕ) (rest : List ℕ) → TakesSign quoted text.now byte rest → ⊥) (λ x. TakesSign quoted text.now x.0 x.1.now) }
{
    match text {
        [b'\\', byte, rest @ ..] => Some((*byte, rest)),
        [byte, rest @ ..] if *byte != b'\\' && !ends(*byte, quoted) => Some((*byte, rest)),
        _ => None,
    }
}

/// Whether nothing comes, or a byte that ends signs.
fn stops(text: &[u8], quoted: bool) -> bool
    ensures { IsTrue result ↔ Stops quoted text.now }
{
    match text {
        [first, ..] => ends(*first, quoted),
        [] => true,
    }
}

/// Whether the byte, where it stands alone, ends signs.
fn ends(byte: u8, quoted: bool) -> bool
    ensures { result ≡ ends quoted byte }
{
    if quoted {
        byte == b'"'
    } else {
        byte.is_ascii_whitespace() || byte == b',' || byte == b'=' || byte == b'>' || byte == b'"'
    }
}
