//! The rows of INSERT.

ghost use Rattle.std.specs.Prelude.{◌≡◌, ◌≤◌, ◌^◌, List, [], ◌∷◌, length, map, Option, None, option_copied, MatchResult};
ghost use Rattle.std.specs.List.{AllByRecursion, list_any};
ghost use Rattle.gx_parse.specs.Sound.{IsGiven, RowsHaveLiterals};
ghost use Rattle.gx_parse.specs.declared.statement.Given.{Given};
ghost use Rattle.gx_model.specs.Checks.{Find, fits};
ghost use Rattle.gx_model.specs.Database.{Table, AreDistinct};
ghost use Rattle.gx_model.specs.Faults.{insert_checks, rows_checks, is_of_other_width, width_of};
ghost use Rattle.gx_model.specs.Refusals.{Refuses};
ghost use Rattle.gx_model.specs.Values.{ReadsRow};
ghost use Rattle.gx_value.specs.Rows.{RefusesRow};
ghost use Rattle.gx_value.specs.Values.{Datum};
ghost use Rattle.gx_value.specs.declared.fields.Column.{Column};
ghost use Rattle.gx_target.specs.Encoded.{Encode, EncodeFor, EncodesRow, row_checks};
ghost use Rattle.gx_target.specs.Places.{columns_at, HasPlaces};

use crate::places::listed_places;
use crate::values::read_row;
use gx_bytes::Bytes;
use gx_model::Refusal;
use gx_parse::{Given, GivenRow, Items, Names};
use gx_value::{Column, RowError, encode_row};
use std::alloc::Global;

/// Rows as bytes, in order.
pub type RowsBytes = Items<Bytes>;

/// No row has this number or one above it.
const END_OF_NUMBERS: u64 = 1 << 48;

/// The rows that INSERT gives for the listed columns of a table, whose next row has this number, as bytes. The first fault is E4 or E5 of the list, E7
/// over all rows, and then, row by row, E6, E8, E9 and E18 of its values, E10, and E21.
pub fn row_bytes(
    alloc: Global,
    columns: &[Column],
    listed: Option<&Names>,
    next: u64,
    rows: &[GivenRow],
) -> Result<RowsBytes, Refusal>
    requires literals { RowsHaveLiterals rows.now }
    requires distinct { AreDistinct (map (λ c. c.name) columns.now) }
    requires next { next ≤ 2 ^ 48 }
    ensures { (t : Table) → t.columns ≡ columns.now → t.next ≡ next → MatchResult result
        (λ bytes. Find (insert_checks (option_copied listed.entry) rows.now t) None × Encode columns.now (option_copied listed.entry) rows.now bytes)
        (Refuses (insert_checks (option_copied listed.entry) rows.now t)) }
{
    let places = listed_places(alloc, columns, listed)?;
    if has_other_width(columns, width_of(listed, rows), rows) {
        return Err(Refusal::Fault { number: 7 });
    }
    encode_rows(alloc, columns, places.as_slice(), next, rows)
}

/// How many values a row has to have.
fn width_of(listed: Option<&Names>, rows: &[GivenRow]) -> usize
    ensures { result ≡ width_of (option_copied listed.entry) rows.now }
{
    match (listed, rows.first()) {
        (Some(names), _) => names.len(),
        (None, Some(row)) => row.len(),
        (None, None) => 0,
    }
}

/// Whether some row has more values than there are columns, or another number than this.
fn has_other_width(columns: &[Column], width: usize, rows: &[GivenRow]) -> bool
    ensures { result ≡ list_any (is_of_other_width columns.now width) rows.now }
{
    rows.iter()
        .any(|row| row.len() > columns.len() || row.len() != width)
}

/// The rows that are given for the columns at these places as bytes.
fn encode_rows(
    alloc: Global,
    columns: &[Column],
    places: &[usize],
    next: u64,
    rows: &[GivenRow],
) -> Result<RowsBytes, Refusal>
    requires literals { RowsHaveLiterals rows.now }
    requires distinct { AreDistinct (map (λ c. c.name) columns.now) }
    requires places { HasPlaces columns.now places.now }
    requires widths { AllByRecursion (λ row. length row ≤ length places.now) rows.now }
    requires next { next ≤ 2 ^ 48 }
    ensures { let targets = columns_at columns.now places.now in MatchResult result
        (λ bytes. Find (rows_checks columns.now targets next rows.now) None × EncodeFor columns.now targets rows.now bytes)
        (Refuses (rows_checks columns.now targets next rows.now)) }
{
    let mut all = Items::new(alloc);
    let mut number = next;
    for row in rows {
        let bytes = encode_given(alloc, columns, places, row.as_slice())?;
        if number >= END_OF_NUMBERS {
            return Err(Refusal::Fault { number: 21 });
        }
        if all.push(bytes).is_err() {
            return Err(Refusal::Memory);
        }
        number += 1;
    }
    Ok(all)
}

/// The row that is given for the columns at these places as bytes.
fn encode_given(
    alloc: Global,
    columns: &[Column],
    places: &[usize],
    row: &[Given],
) -> Result<Bytes, Refusal>
    requires literals { AllByRecursion IsGiven row.now }
    requires distinct { AreDistinct (map (λ c. c.name) columns.now) }
    requires places { HasPlaces columns.now places.now }
    requires width { length row.now ≤ length places.now }
    ensures { let targets = columns_at columns.now places.now in MatchResult result
        (EncodesRow columns.now targets row.now)
        (Refuses (row_checks columns.now targets row.now)) }
{
    let fields = read_row(alloc, columns, places, row)?;
    match encode_row(alloc, &fields) {
        Ok(bytes) => Ok(bytes),
        Err(error) => Err(refusal_of(error)),
    }
}

/// The refusal of a row with this error.
fn refusal_of(error: RowError) -> Refusal
    ensures { (columns targets : List Column) (row : List Given) (fields : List (Option Datum)) → ReadsRow columns targets row fields → RefusesRow fields error → Refuses (fits columns targets row ∷ []) result }
{
    match error {
        RowError::TooLong { .. } => Refusal::Fault { number: 10 },
        RowError::Memory => Refusal::Memory,
    }
}
