//! The choice among indexes.

ghost use Rattle.std.specs.Prelude.{◌≡◌, ◌<◌, ◌^◌, ◌&&◌, None, Some, position, option_map, IfOk, MatchOption};
ghost use Rattle.gx_catalog.specs.declared.info.IndexInfo.{IndexInfo};
ghost use Rattle.gx_value.specs.Classes.{supports};
ghost use Rattle.gx_model.specs.Plans as model;
ghost use Rattle.gx_model.specs.Truth as truth;
ghost use Rattle.gx_plan.specs.Bounds.{bound_of, operand_of};
ghost use Rattle.gx_plan.specs.Indexes.{is_on};
ghost use Rattle.gx_plan.specs.Plans.{at_place, IsChosen, Joins};

use crate::bound::Bound;
use crate::plan::Plan;
use gx_bytes::NoMemory;
use gx_catalog::{Catalog, IndexInfo, found_among, own_found};
use gx_opr::Operand;
use gx_value::{OperandType, Operator, supports};
use std::alloc::Global;

/// By which indexes the rows of the table with this number are found of which the condition is true. An operator takes the
/// earliest index on its column that answers it, IS NULL the earliest on its column; AND takes the sides that indexes
/// find, OR two such sides; else it is the whole table.
pub fn choose_plan(
    alloc: Global,
    catalog: &Catalog,
    table: u32,
    condition: &Bound,
) -> Result<Plan, NoMemory>
    ensures { IfOk result (IsChosen catalog.now table (bound_of condition.now)) }
{
    match condition {
        Bound::And(left, right) => {
            let left = choose_plan(alloc, catalog, table, left)?;
            let right = choose_plan(alloc, catalog, table, right)?;
            both(alloc, left, right)
        }
        Bound::Or(left, right) => {
            let left = choose_plan(alloc, catalog, table, left)?;
            let right = choose_plan(alloc, catalog, table, right)?;
            either(alloc, left, right)
        }
        Bound::Not(_) => Ok(Plan::Table),
        Bound::Atom { place, op, operand } => {
            Ok(plan_of_atom(catalog, table, *place, *op, operand))
        }
        Bound::IsNull { place, negated } => Ok(plan_of_null(catalog, table, *place, *negated)),
    }
}

fn both(alloc: Global, left: Plan, right: Plan) -> Result<Plan, NoMemory>
    ensures { IfOk result (Joins model.both left right) }
{
    if left.is_table() {
        return Ok(right);
    }
    if right.is_table() {
        return Ok(left);
    }
    Ok(Plan::And(Box::new(alloc, left)?, Box::new(alloc, right)?))
}

fn either(alloc: Global, left: Plan, right: Plan) -> Result<Plan, NoMemory>
    ensures { IfOk result (Joins model.either left right) }
{
    if left.is_table() || right.is_table() {
        return Ok(Plan::Table);
    }
    Ok(Plan::Or(Box::new(alloc, left)?, Box::new(alloc, right)?))
}

fn plan_of_atom(
    catalog: &Catalog,
    table: u32,
    place: usize,
    op: Operator,
    operand: &Option<Operand>,
) -> Plan
    ensures { IsChosen catalog.now table (truth.Atom place op (option_map operand_of operand.now)) result }
{
    found_among();
    own_found();
    match operand {
        Some(operand) => {
            let found = first_answering(catalog.indexes(), table, place, op, operand.kind);
            plan_at(found)
        }
        None => Plan::Table,
    }
}

fn plan_of_null(catalog: &Catalog, table: u32, place: usize, negated: bool) -> Plan
    ensures { IsChosen catalog.now table (truth.IsNull place negated) result }
{
    found_among();
    own_found();
    if negated {
        return Plan::Table;
    }
    plan_at(first_on(catalog.indexes(), table, place))
}

/// The index at this place, or the whole table.
fn plan_at(found: Option<usize>) -> Plan
    requires { MatchOption found (Unit {0}) (λ place. place < 2 ^ 16) }
    ensures { result ≡ at_place found }
{
    match found {
        Some(place) => Plan::One(place as u16),
        None => Plan::Table,
    }
}

/// The place of the first index on the column that answers the operator with an operand of the type.
fn first_answering(
    indexes: &[IndexInfo],
    table: u32,
    place: usize,
    op: Operator,
    operand: OperandType,
) -> Option<usize>
    ensures { result ≡ position (λ (i : IndexInfo). is_on table place i && supports i.class op operand) indexes.now }
{
    indexes.iter().position(|index| is_on(index, table, place)
        && supports(index.class, op, operand))
}

/// The place of the first index on the column.
fn first_on(indexes: &[IndexInfo], table: u32, place: usize) -> Option<usize>
    ensures { result ≡ position (is_on table place) indexes.now }
{
    indexes.iter().position(|index| is_on(index, table, place))
}

/// Whether the index is on the column at this place of the table.
fn is_on(index: &IndexInfo, table: u32, place: usize) -> bool
    ensures { result ≡ is_on table place index.now }
{
    index.table == table && index.column as usize == place
}
