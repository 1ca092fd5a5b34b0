//! Which rows are asked for.

ghost use Rattle.std.specs.Prelude.{◌≡◌, None, map, option_copied, option_map, IfOk, MatchResult};
ghost use Rattle.gx_model.specs.Checks.{Find};
ghost use Rattle.gx_model.specs.Conditions.{where_checks, BindsWhere};
ghost use Rattle.gx_model.specs.Refusals.{Refuses};
ghost use Rattle.gx_model.specs.Truth.{selects};
ghost use Rattle.gx_parse.specs.Sound.{WhereHasLiterals};
ghost use Rattle.gx_parse.specs.Trees.{tree_of};
ghost use Rattle.gx_value.specs.Values.{row_of, IsRow};
ghost use Rattle.gx_plan.specs.Bounds.{bound_of, kinds_of};
ghost use Rattle.gx_query.specs.Walks.{IsFilter, IsBoundWhere, condition_of};

use crate::wanted::wanted_by;
use gx_bytes::NoMemory;
use gx_model::Refusal;
use gx_parse::Condition;
use gx_plan::{Bound, Truth, bind};
use gx_value::{Column, ColumnType, Value};
use std::alloc::Global;

/// The types of a table's columns, the condition on its rows, if there is one, and for each column whether the condition names it.
#[derive(Drop)]
pub struct Filter {
    pub kinds: Vec<ColumnType>,
    pub wanted: Vec<bool>,
    pub condition: Option<Bound>,
}

impl Filter {
    /// Whether the condition is true of a row with these fields.
    pub fn selects(&self, alloc: Global, fields: &[Option<Value>]) -> Result<bool, NoMemory>
        requires bound { IsBoundWhere self.now.kinds.items (condition_of self.now) }
        requires row { IsRow self.now.kinds.items (row_of fields.now) }
        ensures { IfOk result (λ yes. yes ≡ selects (condition_of self.now) (row_of fields.now)) }
    {
        match &self.condition {
            Some(condition) => match condition.truth(alloc, fields)? {
                Truth::True => Ok(true),
                Truth::False | Truth::Unknown => Ok(false),
            },
            None => Ok(true),
        }
    }
}

/// The filter of a condition on a table with these columns. The fault is the condition's first one.
pub fn filter_of(
    alloc: Global,
    columns: &[Column],
    condition: Option<&Condition>,
) -> Result<Filter, Refusal>
    requires { WhereHasLiterals (option_map tree_of (option_copied condition)) }
    ensures answer { MatchResult result
        (λ filter. Find (where_checks columns.now (option_map tree_of (option_copied condition.entry))) None × BindsWhere columns.now (option_map tree_of (option_copied condition.entry)) (condition_of filter))
        (Refuses (where_checks columns.now (option_map tree_of (option_copied condition.entry)))) }
    ensures filter { IfOk result (IsFilter columns.now) }
{
    let Ok(kinds) = types_of(alloc, columns) else {
        return Err(Refusal::Memory);
    };
    let bound = bind_where(alloc, columns, condition)?;
    let Ok(wanted) = wanted_by(alloc, columns.len(), &bound) else {
        return Err(Refusal::Memory);
    };
    Ok(Filter {
        kinds,
        wanted,
        condition: bound,
    })
}

// The bound condition, if there is one.
fn bind_where(
    alloc: Global,
    columns: &[Column],
    condition: Option<&Condition>,
) -> Result<Option<Bound>, Refusal>
    requires { WhereHasLiterals (option_map tree_of (option_copied condition)) }
    ensures answer { MatchResult result
        (λ bound. Find (where_checks columns.now (option_map tree_of (option_copied condition.entry))) None × BindsWhere columns.now (option_map tree_of (option_copied condition.entry)) (option_map bound_of bound))
        (Refuses (where_checks columns.now (option_map tree_of (option_copied condition.entry)))) }
    ensures bound { IfOk result (λ bound. IsBoundWhere (kinds_of columns.now) (option_map bound_of bound)) }
{
    match condition {
        Some(condition) => {
            let bound = bind(alloc, columns, condition)?;
            Ok(Some(bound))
        }
        None => Ok(None),
    }
}

// The types of columns.
fn types_of(alloc: Global, columns: &[Column]) -> Result<Vec<ColumnType>, NoMemory>
    ensures { IfOk result (λ kinds. kinds.items ≡ kinds_of columns.now) }
{
    let mut kinds = Vec::with_capacity(alloc, columns.len())?;
    for column in columns {
        kinds.push(column.kind)?;
    }
    Ok(kinds)
}
