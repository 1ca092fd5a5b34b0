//! One element of an array text.

ghost use Rattle.std.specs.Prelude.{◌≡◌, ◌≢◌, ◌≤◌, ℕ, List, [], ◌∷◌, length, take, drop, IsTrue, ◌↔◌, IfOk, MatchOption};
ghost use Rattle.gx_intarr.specs.Runs.{Pass, Stops};
ghost use Rattle.gx_intarr.specs.Texts.{is_plain};
ghost use Rattle.gx_intarr.specs.Reading.{TakesSign, TakesElement};

use gx_bytes::{Bytes, NoMemory, behind_byte, trimmed};
use std::alloc::Global;

/// Whether the closing brace comes, and nothing behind it.
pub(crate) fn is_end(text: &[u8]) -> bool
    ensures { IsTrue result ↔ (text.now ≡ 125 ∷ []) }
{
    matches!(text, [b'}'])
}

/// The element at the front, and what stands behind it. None where no element stands there.
pub(crate) fn take_element(alloc: Global, bytes: &[u8]) -> Result<Option<(Bytes, &[u8])>, NoMemory>
    ensures { IfOk result (λ r. MatchOption r ((text rest : List ℕ) → TakesElement bytes.now text rest → ⊥) (λ x. TakesElement bytes.now x.0 x.1.now)) }
{
    match behind_byte(bytes, b'"') {
        Some(inside) => take_quoted(alloc, bytes, inside),
        None => take_bareword(alloc, bytes),
    }
}

/// The text from the opening quote to the closing one, and what stands behind it.
fn take_quoted<'a>(
    alloc: Global,
    bytes: &'a [u8],
    inside: &'a [u8],
) -> Result<Option<(Bytes, &'a [u8])>, NoMemory>
    requires { bytes.now ≡ 34 ∷ inside.now }
    ensures { IfOk result (λ r. MatchOption r ((text rest : List ℕ) → TakesElement bytes.entry.now text rest → ⊥) (λ x. TakesElement bytes.entry.now x.0 x.1.now)) }
{
    let mut text = Bytes::new(alloc);
    let mut rest = inside;
    'signs: while let Some((byte, after)) = take_sign(rest) {
        text.push(byte)?;
        rest = after;
    }
    match behind_byte(rest, b'"') {
        Some(after) => Ok(Some((text, after))),
        None => Ok(None),
    }
}

/// The byte at the front, without the backslash before it, and what stands behind it. None at a quote,
/// at a backslash with nothing behind it, and at the end.
fn take_sign(text: &[u8]) -> Option<(u8, &[u8])>
    ensures { MatchOption result ((byte : ℕ) (rest : List ℕ) → TakesSign text.now byte rest → ⊥) (λ x. TakesSign text.now x.0 x.1.now) }
{
    match text {
        [b'\\', byte, rest @ ..] => Some((*byte, rest)),
        [byte, rest @ ..] if *byte != b'\\' && *byte != b'"' => Some((*byte, rest)),
        _ => None,
    }
}

/// The bytes up to the first that only quotes or a backslash allow, without the white space round them.
/// None where they are empty or NULL.
fn take_bareword(alloc: Global, bytes: &[u8]) -> Result<Option<(Bytes, &[u8])>, NoMemory>
    requires { (inside : List ℕ) → bytes.now ≢ 34 ∷ inside }
    ensures { IfOk result (λ r. MatchOption r ((text rest : List ℕ) → TakesElement bytes.entry.now text rest → ⊥) (λ x. TakesElement bytes.entry.now x.0 x.1.now)) }
{
    let (raw, rest) = bytes.split_at(plain_length(bytes));
    let core = trimmed(raw);
    if core.is_empty() || core.eq_ignore_ascii_case(b"null") {
        return Ok(None);
    }
    Ok(Some((Bytes::from_slice(alloc, core)?, rest)))
}

fn plain_length(bytes: &[u8]) -> usize
    ensures within { result ≤ length bytes.now }
    ensures run { Pass is_plain (take result bytes.now) }
    ensures stops { Stops is_plain (drop result bytes.now) }
{
    let mut length = 0;
    while length < bytes.len() && is_plain(bytes[length]) {
        length += 1;
    }
    length
}

/// Whether the byte may stand in an element without quotes.
fn is_plain(byte: u8) -> bool
    ensures { result ≡ is_plain byte }
{
    !(byte == b'"' || byte == b'\\' || byte == b'{' || byte == b'}' || byte == b',')
}
