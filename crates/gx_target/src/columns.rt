//! The columns of CREATE TABLE.

ghost use Rattle.std.specs.Prelude.{◌≡◌, [], ◌∷◌, ◌++◌, None, MatchResult, OnOk};
ghost use Rattle.std.specs.List.{filter_map, list_any};
ghost use Rattle.std.specs.Str.{bytes_eq};
ghost use Rattle.gx_model.specs.Checks.{Find};
ghost use Rattle.gx_model.specs.Faults.{new_column_checks};
ghost use Rattle.gx_model.specs.Refusals.{Refuses};
ghost use Rattle.gx_model.specs.Steps.{column_of};

use crate::casts::column_type;
use crate::places::is_same;
use gx_bytes::NoMemory;
use gx_model::Refusal;
use gx_parse::ColumnWord;
use gx_value::{Column, ColumnType, Columns};
use std::alloc::Global;

/// The columns of a new table. The first fault, column by column, is E5 or E6.
pub fn new_columns(alloc: Global, words: &[ColumnWord]) -> Result<Columns, Refusal>
    ensures { MatchResult result (λ columns. Find (new_column_checks [] words.now) None × (columns ≡ filter_map column_of words.now)) (Refuses (new_column_checks [] words.now)) }
{
    let mut columns = Columns::new(alloc);
    for word in words {
        if is_named(columns.as_slice(), word.name.as_slice()) {
            return Err(Refusal::Fault { number: 5 });
        }
        let Some(kind) = column_type(&word.kind) else {
            return Err(Refusal::Fault { number: 6 });
        };
        if push_column(alloc, word, kind, &mut columns).is_err() {
            return Err(Refusal::Memory);
        }
    }
    Ok(columns)
}

/// Whether a column has this name.
fn is_named(columns: &[Column], name: &[u8]) -> bool
    ensures { result ≡ list_any (λ c. bytes_eq name.now c.name) columns.now }
{
    columns
        .iter()
        .any(|column| is_same(name, column.name.as_slice()))
}

/// Adds the column of this word, whose type is known, at the end.
fn push_column(
    alloc: Global,
    word: &ColumnWord,
    kind: ColumnType,
    columns: &mut Columns,
) -> Result<(), NoMemory>
    ensures { OnOk result (columns.new ≡ columns.old ++ record { name = word.now.name; kind = kind } ∷ []) }
{
    let name = word.name.copy(alloc)?;
    columns.push(Column { name, kind })
}
