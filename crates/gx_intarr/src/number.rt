//! A number of a query.

ghost use Rattle.std.specs.Prelude.{◌≡◌, ℕ, ℤ, List, ◌≤◌, ◌≢◌, ◌∷◌, MatchOption, length, take, drop};
ghost use Rattle.std.specs.Char.{is_ascii_digit};
ghost use Rattle.gx_bytes.specs.Wholes.{SpellsWhole, IsOutside};
ghost use Rattle.gx_intarr.specs.Runs.{Pass, Stops};
ghost use Rattle.gx_intarr.specs.Arrays.{least, greatest, SpellsInt4};
ghost use Rattle.gx_intarr.specs.Numbers.{TakesNumber};

use gx_bytes::{behind_byte, whole_of};

/// The text of a number at the front, which goes on as far as digits do, and what stands behind it.
pub(crate) fn take_number(text: &[u8]) -> Option<(&[u8], &[u8])>
    ensures { MatchOption result ((raw rest : List ℕ) → TakesNumber text.now raw rest → ⊥) (λ x. TakesNumber text.now x.0.now x.1.now) }
{
    match behind_byte(text, b'-') {
        Some(behind) => take_signed(text, behind),
        None => take_unsigned(text),
    }
}

fn take_signed<'a>(text: &'a [u8], behind: &'a [u8]) -> Option<(&'a [u8], &'a [u8])>
    requires { text.now ≡ 45 ∷ behind.now }
    ensures { MatchOption result ((raw rest : List ℕ) → TakesNumber text.entry.now raw rest → ⊥) (λ x. TakesNumber text.entry.now x.0.now x.1.now) }
{
    let digits = digits_length(behind);
    if digits == 0 {
        return None;
    }
    Some(text.split_at(1 + digits))
}

fn take_unsigned(text: &[u8]) -> Option<(&[u8], &[u8])>
    requires { (behind : List ℕ) → text.now ≢ 45 ∷ behind }
    ensures { MatchOption result ((raw rest : List ℕ) → TakesNumber text.entry.now raw rest → ⊥) (λ x. TakesNumber text.entry.now x.0.now x.1.now) }
{
    let digits = digits_length(text);
    if digits == 0 {
        return None;
    }
    Some(text.split_at(digits))
}

fn digits_length(text: &[u8]) -> usize
    ensures within { result ≤ length text.now }
    ensures run { Pass is_ascii_digit (take result text.now) }
    ensures stops { Stops is_ascii_digit (drop result text.now) }
{
    let mut length = 0;
    while length < text.len() && text[length].is_ascii_digit() {
        length += 1;
    }
    length
}

/// The number that the text spells; None where it lies outside of int4.
pub(crate) fn int4_of(raw: &[u8]) -> Option<i32>
    requires { (text : List ℕ) × (rest : List ℕ) × TakesNumber text raw.now rest }
    ensures { MatchOption result ((n : ℤ) × SpellsWhole raw.now n × IsOutside least greatest n) (λ n. SpellsInt4 raw.now n) }
{
    match whole_of(raw, i64::from(i32::MIN), i64::from(i32::MAX)) {
        Ok(number) => Some(number as i32),
        Err(_) => None,
    }
}
