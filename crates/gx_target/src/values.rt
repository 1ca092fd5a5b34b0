//! The values of a row of INSERT.

ghost use Rattle.std.specs.Prelude.{◌≡◌, ◌≢◌, ◌==◌, ℕ, ◌≤◌, [], ◌∷◌, length, map, None, option_map, position, IfOk, MatchResult};
ghost use Rattle.std.specs.List.{AllByRecursion};
ghost use Rattle.gx_parse.specs.Sound.{IsGiven};
ghost use Rattle.gx_model.specs.Checks.{Find, is_value};
ghost use Rattle.gx_model.specs.Database.{AreDistinct};
ghost use Rattle.gx_model.specs.Faults.{values_checks, value_checks};
ghost use Rattle.gx_model.specs.Refusals.{Refuses};
ghost use Rattle.gx_model.specs.Values.{IsRead, ReadsValues, fields_of};
ghost use Rattle.gx_value.specs.Literals.{RefusesLiteral};
ghost use Rattle.gx_value.specs.Values.{datum_of, row_of};
ghost use Rattle.gx_value.specs.declared.literal.Literal.{Literal};
ghost use Rattle.gx_value.specs.declared.types.ColumnType.{ColumnType};
ghost use Rattle.gx_target.specs.Encoded.{IsReadRow};
ghost use Rattle.gx_target.specs.Places.{columns_at, value_at, HasPlaces};

use crate::casts::check_cast;
use gx_bytes::{NoMemory, ValueError};
use gx_model::Refusal;
use gx_parse::Given;
use gx_value::{Column, Fields, Value, read_value};
use std::alloc::Global;

/// The fields of the row that is given for the columns at these places. The first fault, value by value, is E6, E8, E9 or E18.
pub fn read_row(
    alloc: Global,
    columns: &[Column],
    places: &[usize],
    row: &[Given],
) -> Result<Fields, Refusal>
    requires literals { AllByRecursion IsGiven row.now }
    requires distinct { AreDistinct (map (λ c. c.name) columns.now) }
    requires places { HasPlaces columns.now places.now }
    requires width { length row.now ≤ length places.now }
    ensures { let targets = columns_at columns.now places.now in MatchResult result
        (λ fields. Find (values_checks targets row.now) None × IsReadRow columns.now targets row.now (row_of fields))
        (Refuses (values_checks targets row.now)) }
{
    let values = read_values(alloc, columns, places, row)?;
    match fields_of(alloc, columns, places, values) {
        Ok(fields) => Ok(fields),
        Err(_) => Err(Refusal::Memory),
    }
}

/// The values in the order in which they are given.
fn read_values(
    alloc: Global,
    columns: &[Column],
    places: &[usize],
    row: &[Given],
) -> Result<Vec<Option<Value>>, Refusal>
    requires literals { AllByRecursion IsGiven row.now }
    requires places { HasPlaces columns.now places.now }
    requires width { length row.now ≤ length places.now }
    ensures { let targets = columns_at columns.now places.now in MatchResult result
        (λ values. Find (values_checks targets row.now) None × ReadsValues targets row.now (row_of values.items))
        (Refuses (values_checks targets row.now)) }
{
    let Ok(mut values) = Vec::with_capacity(alloc, row.len()) else {
        return Err(Refusal::Memory);
    };
    for (i, given) in row.iter().enumerate() {
        let place = places[i];
        let value = read_given(alloc, &columns[place], given)?;
        if values.push(value).is_err() {
            return Err(Refusal::Memory);
        }
    }
    Ok(values)
}

/// The value that is given for a column.
fn read_given(alloc: Global, column: &Column, given: &Given) -> Result<Option<Value>, Refusal>
    requires { IsGiven given.now }
    ensures { MatchResult result
        (λ value. Find (value_checks column.now given.now) None × IsRead column.now given.now (option_map datum_of value))
        (Refuses (value_checks column.now given.now)) }
{
    check_cast(column.kind, &given.cast)?;
    match read_value(alloc, column.kind, &given.literal) {
        Ok(value) => Ok(value),
        Err(error) => Err(refusal_of(error)),
    }
}

/// The refusal of a literal with this error.
fn refusal_of(error: ValueError) -> Refusal
    ensures { (kind : ColumnType) (literal : Literal) → RefusesLiteral kind literal error → Refuses (is_value kind literal ∷ []) result }
{
    match error {
        ValueError::NoValue => Refusal::Fault { number: 8 },
        ValueError::OutOfRange => Refusal::Fault { number: 9 },
        ValueError::TooDeep => Refusal::Fault { number: 18 },
        ValueError::Memory => Refusal::Memory,
    }
}

/// The fields in the order of the columns: for each the value that is given for it, or NULL.
fn fields_of(
    alloc: Global,
    columns: &[Column],
    places: &[usize],
    values: Vec<Option<Value>>,
) -> Result<Fields, NoMemory>
    requires distinct { AreDistinct (map (λ c. c.name) columns.now) }
    requires places { HasPlaces columns.now places.now }
    ensures { IfOk result (λ fields. row_of fields ≡ fields_of columns.now (columns_at columns.now places.now) (row_of values.items)) }
{
    let mut fields = Fields::with_capacity(alloc, columns.len())?;
    let mut values = values;
    for place in 0..columns.len() {
        let value = take_for(place, places, &mut values);
        fields.push(value)?;
    }
    Ok(fields)
}

/// Takes the value that is given for the column at a place.
fn take_for(place: usize, places: &[usize], values: &mut Vec<Option<Value>>) -> Option<Value>
    ensures value { option_map datum_of result ≡ value_at place places.now (row_of values.old.items) }
    ensures others { (other : ℕ) → other ≢ place → value_at other places.now (row_of values.new.items) ≡ value_at other places.now (row_of values.old.items) }
{
    let i = find_place(places, place)?;
    if i < values.len() {
        values[i].take()
    } else {
        None
    }
}

fn find_place(places: &[usize], place: usize) -> Option<usize>
    ensures { result ≡ position (λ p. p == place) places.now }
{
    places.iter().position(|other| *other == place)
}
