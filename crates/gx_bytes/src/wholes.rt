//! Whole numbers as text.

ghost use Rattle.std.specs.Prelude.{◌≡◌, ℕ, ◌^◌, ◌≤◌, ◌≤ℤ◌, ◌↔◌, ◌++◌, ◌+◌, ◌-◌, ◌*◌, ◌<◌, IsTrue, SomeIff, EachIndex, slice_index, MatchOption, MatchResult, OnOk, OnErr, ℤ, pos, neg_ℤ, if◌then◌else◌};
ghost use Rattle.std.specs.Str.Parse.{IsNumeral, digits_value, starts_with_minus, without_leading_sign};
ghost use Rattle.std.specs.Int.{IsInRange};
ghost use Rattle.std.specs.Fmt.{signed_decimal};
ghost use Rattle.gx_bytes.specs.Wholes.{IsWithin, IsOutside, SpellsWhole, AnswersWhole, OneWholeAnswer};

use crate::{Bytes, NoMemory, ValueError, trimmed};
use itoa::Buffer;

/// Reads a whole number: white space, a sign, decimal digits, white space; only the digits must
/// be there. A number below `least` or above `greatest` is out of range.
pub fn read_whole(text: &str, least: i64, greatest: i64) -> Result<i64, ValueError>
    ensures { AnswersWhole text.now least greatest result }
{
    whole_of(text.as_bytes(), least, greatest)
}

/// As [`read_whole`], of bytes.
pub fn whole_of(text: &[u8], least: i64, greatest: i64) -> Result<i64, ValueError>
    ensures { AnswersWhole text.now least greatest result }
{
    let core = trimmed(text);
    let (minus, digits) = without_sign(core);
    if !is_numeral(digits) {
        return Err(ValueError::NoValue);
    }
    let Some(size) = numeral_value(digits) else {
        return Err(ValueError::OutOfRange);
    };
    limited(with_sign(minus, size), least, greatest)
}

/// A text has one answer of [`read_whole`].
pub fn one_whole_answer()
    ensures { OneWholeAnswer }
{}

/// The text that [`print_whole`] appends spells the number.
pub fn printed_whole_again()
    ensures { (n : ℤ) → IsWithin (neg_ℤ (pos (2 ^ 63))) (pos (2 ^ 63 - 1)) n → SpellsWhole (signed_decimal n) n }
{}

/// Appends the number in decimal, with `-` before a negative one.
pub fn print_whole(value: i64, to: &mut Bytes) -> Result<(), NoMemory>
    ensures ok { OnOk result (to.new ≡ to.old ++ signed_decimal value) }
    ensures err { OnErr result (to.new ≡ to.old) }
{
    let mut buffer = Buffer::new();
    to.extend_from_slice(buffer.format(value).as_bytes())
}

/// Whether the text begins with `-`, and what stands behind the sign.
fn without_sign(core: &[u8]) -> (bool, &[u8])
    ensures minus { result.0 ≡ starts_with_minus core.now }
    ensures digits { result.1.now ≡ without_leading_sign core.now }
{
    match core {
        [b'-', digits @ ..] => (true, digits),
        [b'+', digits @ ..] => (false, digits),
        _ => (false, core),
    }
}

/// Whether the bytes are one or more decimal digits.
pub fn is_numeral(digits: &[u8]) -> bool
    ensures { IsTrue result ↔ IsNumeral 10 digits.now }
{
    !digits.is_empty() && are_digits(digits)
}

fn are_digits(bytes: &[u8]) -> bool
    ensures { IsTrue result ↔ EachIndex bytes.now (λ k. IsInRange 48 57 (slice_index bytes.now k)) }
{
    bytes.iter().all(|byte| byte.is_ascii_digit())
}

/// The number that decimal digits write; None where it is 2^64 or more.
pub fn numeral_value(digits: &[u8]) -> Option<u64>
    requires { IsNumeral 10 digits.now }
    ensures { MatchOption result (2 ^ 64 ≤ digits_value 10 digits.now) (λ size. size ≡ digits_value 10 digits.now) }
{
    let mut size: u64 = 0;
    for digit in digits {
        let Some(longer) = with_digit(size, *digit) else {
            return None;
        };
        size = longer;
    }
    Some(size)
}

/// The number with one digit more.
fn with_digit(size: u64, digit: u8) -> Option<u64>
    requires { IsInRange 48 57 digit }
    ensures { SomeIff result (size * 10 + (digit - 48) < 2 ^ 64) (size * 10 + (digit - 48)) }
{
    size.checked_mul(10)?.checked_add(u64::from(digit - b'0'))
}

fn with_sign(minus: bool, size: u64) -> i128
    ensures { result ≡ (if minus then neg_ℤ (pos size) else pos size) }
{
    if minus { -(size as i128) } else { size as i128 }
}

fn limited(number: i128, least: i64, greatest: i64) -> Result<i64, ValueError>
    ensures { MatchResult result (λ n. (n ≡ number) × IsWithin least greatest n) (λ e. (e ≡ ValueError.OutOfRange) × IsOutside least greatest number) }
{
    if number < least as i128 || number > greatest as i128 {
        return Err(ValueError::OutOfRange);
    }
    Ok(number as i64)
}
