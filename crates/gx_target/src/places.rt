//! The columns that a statement names, as places.

ghost use Rattle.std.specs.Prelude.{◌≡◌, [], None, Some, MatchResult, position};
ghost use Rattle.std.specs.List.{list_any};
ghost use Rattle.std.specs.Option.{option_copied};
ghost use Rattle.std.specs.Str.{bytes_eq};
ghost use Rattle.gx_model.specs.Checks.{Find};
ghost use Rattle.gx_model.specs.Database.{place_of};
ghost use Rattle.gx_model.specs.Faults.{list_checks, listed_checks, asked_checks};
ghost use Rattle.gx_model.specs.Refusals.{Refuses};
ghost use Rattle.gx_model.specs.declared.refusal.Refusal.TheVariants.{Memory};
ghost use Rattle.gx_target.specs.Places.{ArePlaces};

use gx_bytes::Bytes;
use gx_model::Refusal;
use gx_parse::Names;
use gx_value::Column;
use std::alloc::Global;

/// Places of columns, counted from 0.
pub type Places = Vec<usize>;

/// The places of the columns that INSERT lists; without a list all. The first fault, name by name, is E4 or E5.
pub fn listed_places(
    alloc: Global,
    columns: &[Column],
    names: Option<&Names>,
) -> Result<Places, Refusal>
    ensures { MatchResult result
        (λ places. Find (list_checks columns.now (option_copied names.entry)) None × ArePlaces columns.now (option_copied names.entry) places.items)
        (Refuses (list_checks columns.now (option_copied names.entry))) }
{
    match names {
        Some(names) => distinct_places(alloc, columns, names.as_slice()),
        None => all_places(alloc, columns),
    }
}

/// The places of the columns that SELECT asks for; without a list all. The fault is E4.
pub fn asked_places(
    alloc: Global,
    columns: &[Column],
    names: Option<&Names>,
) -> Result<Places, Refusal>
    ensures { MatchResult result
        (λ places. Find (asked_checks columns.now (option_copied names.entry)) None × ArePlaces columns.now (option_copied names.entry) places.items)
        (Refuses (asked_checks columns.now (option_copied names.entry))) }
{
    match names {
        Some(names) => named_places(alloc, columns, names.as_slice()),
        None => all_places(alloc, columns),
    }
}

fn all_places(alloc: Global, columns: &[Column]) -> Result<Places, Refusal>
    ensures { MatchResult result (λ places. ArePlaces columns.now None places.items) (λ e. e ≡ Memory) }
{
    let mut places = Vec::new(alloc);
    for place in 0..columns.len() {
        if places.push(place).is_err() {
            return Err(Refusal::Memory);
        }
    }
    Ok(places)
}

/// The places of these names, each of which may stand more than once.
fn named_places(alloc: Global, columns: &[Column], names: &[Bytes]) -> Result<Places, Refusal>
    ensures { MatchResult result
        (λ places. Find (asked_checks columns.now (Some names.now)) None × ArePlaces columns.now (Some names.now) places.items)
        (Refuses (asked_checks columns.now (Some names.now))) }
{
    let mut places = Vec::new(alloc);
    for name in names {
        let Some(place) = place_of(columns, name.as_slice()) else {
            return Err(Refusal::Fault { number: 4 });
        };
        if places.push(place).is_err() {
            return Err(Refusal::Memory);
        }
    }
    Ok(places)
}

/// The places of these names, none of which may stand twice.
fn distinct_places(alloc: Global, columns: &[Column], names: &[Bytes]) -> Result<Places, Refusal>
    ensures { MatchResult result
        (λ places. Find (listed_checks columns.now [] names.now) None × ArePlaces columns.now (Some names.now) places.items)
        (Refuses (listed_checks columns.now [] names.now)) }
{
    let mut places = Vec::new(alloc);
    for (i, name) in names.iter().enumerate() {
        let Some(place) = place_of(columns, name.as_slice()) else {
            return Err(Refusal::Fault { number: 4 });
        };
        if is_among(name.as_slice(), &names[..i]) {
            return Err(Refusal::Fault { number: 5 });
        }
        if places.push(place).is_err() {
            return Err(Refusal::Memory);
        }
    }
    Ok(places)
}

/// The place of the column of this name.
fn place_of(columns: &[Column], name: &[u8]) -> Option<usize>
    ensures { result ≡ place_of columns.now name.now }
{
    columns
        .iter()
        .position(|column| is_same(column.name.as_slice(), name))
}

fn is_among(name: &[u8], names: &[Bytes]) -> bool
    ensures { result ≡ list_any (bytes_eq name.now) names.now }
{
    names.iter().any(|other| is_same(name, other.as_slice()))
}

/// Whether both are the same bytes.
pub(crate) fn is_same(one: &[u8], other: &[u8]) -> bool
    ensures { result ≡ bytes_eq one.now other.now }
{
    one == other
}
