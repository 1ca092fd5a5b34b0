//! What is checked on the text outside of its strings, before it is read.

ghost use Rattle.std.specs.Prelude.{◌≡◌, ◌≢◌, ◌∷◌, [], ◌<◌, ◌≤◌, ◌↔◌, IsTrue, IfOk, IfSome, MatchOption, MatchResult, length, position, not};
ghost use Rattle.std.specs.List.{AllByRecursion};
ghost use Rattle.gx_json.specs.Text.{PassesText, IsTextFault};
ghost use Rattle.gx_json.specs.Scan.{outside, open_behind, OpensTooMany, begins_run, is_run_byte, runs, without_minus, IsWholeText, IsInteger, HasFault, HasFirstFault, number_of, least, greatest};
ghost use Rattle.gx_json.specs.Places.{next_place, RunsFor};
ghost use Rattle.gx_bytes.specs.Wholes.{IsWithin};

use gx_bytes::{Bytes, NoMemory, ValueError, is_numeral, numeral_value};
use std::alloc::Global;

/// How many brackets may stand open.
const MOST_OPEN: usize = 64;

/// Where a byte stands.
#[derive(Clone, Copy, Debug, PartialEq, Eq)]
pub(crate) enum Place {
    Outside,
    Inside,
    /// Behind a backslash in a string.
    Escaped,
}

/// Outside strings at most 64 brackets stand open, and each number is an integer of 64 bits.
pub(crate) fn check_text(alloc: Global, text: &[u8]) -> Result<(), ValueError>
    ensures { MatchResult result (λ _. PassesText text.now) (λ e. e ≢ ValueError.Memory → IsTextFault text.now e) }
{
    let Ok(plain) = without_strings(alloc, text) else {
        return Err(ValueError::Memory);
    };
    if opens_too_many(plain.as_slice()) {
        return Err(ValueError::TooDeep);
    }
    check_numbers(plain.as_slice())
}

/// The text with the opening quote alone of each string.
fn without_strings(alloc: Global, text: &[u8]) -> Result<Bytes, NoMemory>
    ensures { IfOk result (λ plain. plain ≡ outside text.now) }
{
    let mut plain = Bytes::new(alloc);
    let mut place = Place::Outside;
    for byte in text {
        if place == Place::Outside {
            plain.push(*byte)?;
        }
        place = next_place(place, *byte);
    }
    Ok(plain)
}

fn next_place(place: Place, byte: u8) -> Place
    ensures { result ≡ next_place place byte }
{
    match place {
        Place::Outside => {
            if byte == b'"' {
                Place::Inside
            } else {
                Place::Outside
            }
        }
        Place::Inside => {
            if byte == b'"' {
                Place::Outside
            } else if byte == b'\\' {
                Place::Escaped
            } else {
                Place::Inside
            }
        }
        Place::Escaped => Place::Inside,
    }
}

/// Whether at some place more than 64 brackets stand open.
fn opens_too_many(plain: &[u8]) -> bool
    ensures { IsTrue result ↔ OpensTooMany plain.now }
{
    let mut count = 0;
    for byte in plain {
        count = open_behind(count, *byte);
        if count > MOST_OPEN {
            return true;
        }
    }
    false
}

fn open_behind(count: usize, byte: u8) -> usize
    requires { count ≤ MOST_OPEN }
    ensures { result ≡ open_behind count byte }
{
    match byte {
        b'[' | b'{' => count + 1,
        b']' | b'}' => count.saturating_sub(1),
        _ => count,
    }
}

/// Each number of the text is an integer of 64 bits, or the fault of the first that isn't.
fn check_numbers(plain: &[u8]) -> Result<(), ValueError>
    ensures { MatchResult result (λ _. AllByRecursion IsInteger (runs plain.now)) (λ e. HasFirstFault (runs plain.now) e) }
{
    let mut rest = plain;
    'runs: while let Some((run, after)) = next_run(rest) {
        check_run(run)?;
        rest = after;
    }
    Ok(())
}

/// The first run of bytes of a number, and what stands behind it.
fn next_run(text: &[u8]) -> Option<(&[u8], &[u8])>
    ensures next { MatchOption result (runs text.now ≡ []) (λ x. runs text.now ≡ x.0.now ∷ runs x.1.now) }
    ensures less { IfSome result (λ x. length x.1.now < length text.now) }
{
    let start = first_start(text)?;
    let end = start + 1 + run_length(&text[start + 1..]);
    Some((&text[start..end], &text[end..]))
}

fn first_start(text: &[u8]) -> Option<usize>
    ensures { result ≡ position begins_run text.now }
{
    text.iter().position(|byte| begins_run(*byte))
}

fn begins_run(byte: u8) -> bool
    ensures { result ≡ begins_run byte }
{
    byte.is_ascii_digit() || byte == b'-'
}

fn is_run_byte(byte: u8) -> bool
    ensures { result ≡ is_run_byte byte }
{
    begins_run(byte) || byte == b'+' || byte == b'.' || byte == b'e' || byte == b'E'
}

/// How many bytes of a number the text begins with.
fn run_length(text: &[u8]) -> usize
    ensures within { result ≤ length text.now }
    ensures run { RunsFor result text.now }
{
    match first_other(text) {
        Some(at) => at,
        None => text.len(),
    }
}

fn first_other(text: &[u8]) -> Option<usize>
    ensures { result ≡ position (λ c. not (is_run_byte c)) text.now }
{
    text.iter().position(|byte| !is_run_byte(*byte))
}

/// NoValue where the run is no whole number without leading zeros, OutOfRange where it has more than 64 bits.
fn check_run(run: &[u8]) -> Result<(), ValueError>
    ensures { MatchResult result (λ _. IsInteger run.now) (λ e. HasFault run.now e) }
{
    if !is_whole(run) {
        return Err(ValueError::NoValue);
    }
    if !is_in_range(run) {
        return Err(ValueError::OutOfRange);
    }
    Ok(())
}

fn without_minus(run: &[u8]) -> &[u8]
    ensures { result.now ≡ without_minus run.now }
{
    match run {
        [b'-', digits @ ..] => digits,
        _ => run,
    }
}

fn is_whole(run: &[u8]) -> bool
    ensures { IsTrue result ↔ IsWholeText run.now }
{
    let digits = without_minus(run);
    run == b"0".as_slice() || (is_numeral(digits) && digits[0] != b'0')
}

fn is_in_range(run: &[u8]) -> bool
    requires { IsWholeText run.now }
    ensures { IsTrue result ↔ IsWithin least greatest (number_of run.now) }
{
    let digits = without_minus(run);
    let most = if run[0] == b'-' {
        1 << 63
    } else {
        (1 << 63) - 1
    };
    match numeral_value(digits) {
        Some(size) => size <= most,
        None => false,
    }
}
