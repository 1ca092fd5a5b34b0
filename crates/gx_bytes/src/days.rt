//! Days as text, by the calendar of `jiff`.

ghost use Rattle.std.specs.Prelude.{◌≡◌, ℕ, List, ◌<◌, ◌≤◌, ◌++◌, MatchOption, MatchResult, OnOk, OnErr, ℤ, length};
ghost use Rattle.gx_bytes.specs.Days.{IsField, IsDateForm, IsInCalendar, IsDay, SpellsDay, AnswersDay, OneDayAnswer, IsDateDay, printed_day};

use crate::{Bytes, NoMemory, ValueError, is_numeral, numeral_value, trimmed};
use jiff::civil::Date;
use jiff_core::civil::Date as PlainDate;
use jiff_fmt::temporal::DateTimePrinter;

/// Reads a day as `2023-02-28`, with white space round it or none, and gives its number, where
/// 1970-01-01 is 0. A text of that form whose day the calendar lacks, or whose year is 0000, is out
/// of range.
pub fn read_day(text: &str) -> Result<i32, ValueError>
    ensures { AnswersDay text.now result }
{
    day_of(text.as_bytes())
}

/// As [`read_day`], of bytes.
pub fn day_of(text: &[u8]) -> Result<i32, ValueError>
    ensures { AnswersDay text.now result }
{
    let Some((year, month, day)) = date_form(trimmed(text)) else {
        return Err(ValueError::NoValue);
    };
    day_number(year, month, day)
}

/// A text has one answer of [`read_day`].
pub fn one_day_answer()
    ensures { OneDayAnswer }
{}

/// The days of the years 1 to 9999 are those that the calendar has, and each that a text spells is one.
pub fn days_of_years()
    ensures are { (y m d : ℕ) (n : ℤ) → IsDay y m d n → IsDateDay n }
    ensures only { (n : ℤ) → IsDateDay n → (y : ℕ) × (m : ℕ) × (d : ℕ) × IsDay y m d n × (y ≤ 9999) }
    ensures spelled { (text : List ℕ) (n : ℤ) → SpellsDay text n → IsDateDay n }
{}

/// Appends the day as `2023-02-28`. The day is one of the years 1 to 9999.
pub fn print_day(day: i32, to: &mut Bytes) -> Result<(), NoMemory>
    requires { IsDateDay day }
    ensures ok { OnOk result (to.new ≡ to.old ++ printed_day day) }
    ensures err { OnErr result (to.new ≡ to.old) }
{
    match PlainDate::from_unix_epoch_day(day as i64) {
        Ok(date) => to.extend_from_slice(DateTimePrinter::new().date_text(date).as_bytes()),
        Err(_) => unreachable!(),
    }
}

/// The text that [`print_day`] appends spells the day.
pub fn printed_day_again()
    ensures { (day : ℤ) → IsDateDay day → SpellsDay (printed_day day) day }
{}

/// The year, the month and the day of the month that the text gives in digits.
fn date_form(core: &[u8]) -> Option<(u16, u8, u8)>
    ensures { MatchOption result ((y m d : ℕ) → IsDateForm core.now y m d → ⊥) (λ p. IsDateForm core.now p.0 p.1 p.2) }
{
    if core.len() != 10 || core[4] != b'-' || core[7] != b'-' {
        return None;
    }
    let Some(year) = field_of(&core[..4]) else {
        return None;
    };
    let Some(month) = field_of(&core[5..7]) else {
        return None;
    };
    let Some(day) = field_of(&core[8..10]) else {
        return None;
    };
    Some((year, month as u8, day as u8))
}

/// The number that up to four digits write.
fn field_of(digits: &[u8]) -> Option<u16>
    requires some { 0 < length digits.now }
    requires few { length digits.now ≤ 4 }
    ensures { MatchOption result ((n : ℕ) → IsField (length digits.now) digits.now n → ⊥) (λ n. IsField (length digits.now) digits.now n) }
{
    if !is_numeral(digits) {
        return None;
    }
    match numeral_value(digits) {
        Some(value) => Some(value as u16),
        None => unreachable!(),
    }
}

/// The number of the day.
fn day_number(year: u16, month: u8, day: u8) -> Result<i32, ValueError>
    requires year { year < 10000 }
    requires month { month < 100 }
    requires day { day < 100 }
    ensures { MatchResult result (λ n. IsDay year month day n) (λ e. (e ≡ ValueError.OutOfRange) × (IsInCalendar year month day → ⊥)) }
{
    if year == 0 {
        return Err(ValueError::OutOfRange);
    }
    match Date::new(year as i16, month as i8, day as i8) {
        Ok(date) => Ok(date.to_plain().to_unix_epoch_day()),
        Err(_) => Err(ValueError::OutOfRange),
    }
}
