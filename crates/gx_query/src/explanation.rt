//! EXPLAIN ANALYZE of a table.

ghost use Rattle.std.specs.Prelude.{◌≡◌, ◌⊎◌, ℕ, ◌+◌, ◌≤◌, [], length, option_copied, option_map, IfOk, IfErr, OnOk, ◌++◌};
ghost use Rattle.gx_pages.specs.Footprints.{StaysQuiet};
ghost use Rattle.gx_pages.specs.Pages.{HasCause};
ghost use Rattle.gx_engine.specs.Engines.{reply_of};
ghost use Rattle.gx_model.specs.Database.{Table};
ghost use Rattle.gx_parse.specs.Said.{query_of};
ghost use Rattle.gx_parse.specs.Sound.{WhereHasLiterals};
ghost use Rattle.gx_step.specs.Doing.{IsOrdinary};
ghost use Rattle.gx_model.specs.Plans.{plan_text};
ghost use Rattle.gx_plan.specs.Bounds.{bound_of};
ghost use Rattle.gx_plan.specs.Plans.{indexes_in, plan_of, IsWithin};
ghost use Rattle.gx_query.specs.Answers.{Answers, Passes, checks_of, explain_reply, explained_reply};
ghost use Rattle.gx_query.specs.Planned.{IsChosenWhere};
ghost use Rattle.gx_query.specs.Tables.{HoldsTable};

use crate::counts::Counts;
use crate::target::{refuse, target_of};
use crate::visitors::Counted;
use crate::walk::walk_rows;
use gx_bytes::Bytes;
use gx_catalog::{Catalog, TableInfo};
use gx_engine::Reply;
use gx_pages::{PageError, Pages, Steps};
use gx_parse::Select;
use gx_plan::{Bound, Plan, choose_plan, print_plan};
use itoa::Buffer;
use std::alloc::Global;
use std::sync::ledger::Ledger;

/// The plan of a query of a table, how many rows it finds, and of how many of them the condition is true. Rows are looked for
/// in the whole table alone: a catalog with an index that a plan takes is none of a database, since no class of indexes is there yet.
pub fn explain_from<P: Pages, L: Ledger>(
    alloc: Global,
    pages: &mut P,
    catalog: &Catalog,
    info: &TableInfo,
    query: &Select,
    steps: &mut Steps<L>,
) -> Result<Reply, PageError>
    requires literals { WhereHasLiterals ((query_of query.now).condition) }
    ensures answers { IfOk result (λ reply. P.tells → catalog.now.indexes ≡ [] → (t : Table) → HoldsTable P.Pages pages.old info.now t → Answers (explain_reply t) (query_of query.now) t (reply_of reply)) }
    ensures map { P.map pages.new ≡ P.map pages.old }
    ensures ordinary { IfOk result (λ reply. IsOrdinary (reply_of reply)) }
    ensures cause { IfErr result (HasCause (P.faults pages.old) (P.faults pages.new)
        (λ at expected found. P.tells → catalog.now.indexes ≡ [] → (t : Table) → HoldsTable P.Pages pages.old info.now t → ⊥) (λ _. ⊥) (Unit {0})) }
    ensures count { P.count pages.new ≡ P.count pages.old }
    ensures ticks { P.heap_fetches pages.new + steps.old ≤ P.heap_fetches pages.old + steps.new }
    ensures most { (steps.new ≡ steps.old) ⊎ (Passes (checks_of info.now.columns (query_of query.now)) info.now.columns ((query_of query.now).condition) × (steps.new ≤ steps.old + info.now.heap.next)) }
    ensures quiet { StaysQuiet P.Pages pages.old pages.new }
{
    let columns = info.columns.as_slice();
    let target = match target_of(alloc, columns, query) {
        Ok(target) => target,
        Err(refusal) => return refuse(alloc, refusal),
    };
    let plan = plan_where(
        alloc,
        catalog,
        info.number,
        target.filter.condition.as_ref(),
    )?;
    if !plan.is_table() {
        return Err(PageError::Broken {
            page: 1,
            expected: 0,
            found: catalog.indexes().len() as u64,
        });
    }
    let mut none = Counted;
    let counts = walk_rows(
        alloc,
        pages,
        &info.heap,
        columns,
        &target.filter,
        &mut none,
        steps,
    )?;
    explained(alloc, catalog, &plan, counts)
}

// By which indexes the rows of the table are found of which the condition is true. The error is Memory.
fn plan_where(
    alloc: Global,
    catalog: &Catalog,
    table: u32,
    condition: Option<&Bound>,
) -> Result<Plan, PageError>
    ensures chosen { IfOk result (IsChosenWhere catalog.now table (option_map bound_of (option_copied condition.entry))) }
    ensures err { IfErr result (λ e. e ≡ PageError.Memory) }
{
    match condition {
        None => Ok(Plan::Table),
        Some(condition) => match choose_plan(alloc, catalog, table, condition) {
            Ok(plan) => Ok(plan),
            Err(_) => Err(PageError::Memory),
        },
    }
}

// The explanation of a plan that finds so many rows. The error is Memory.
#[tactic(auto, unfolding(crate::specs::Answers::explained_reply))]
fn explained(
    alloc: Global,
    catalog: &Catalog,
    plan: &Plan,
    counts: Counts,
) -> Result<Reply, PageError>
    requires { IsWithin (length catalog.now.indexes) plan.now }
    ensures reply { IfOk result (λ reply. reply_of reply ≡ explained_reply (plan_text (plan_of (indexes_in catalog.now) plan.now)) counts.rows counts.selected) }
    ensures ordinary { IfOk result (λ reply. IsOrdinary (reply_of reply)) }
    ensures err { IfErr result (λ e. e ≡ PageError.Memory) }
{
    let mut bytes = Bytes::new(alloc);
    let mut buffer = Buffer::new();
    push(&mut bytes, "PLAN ")?;
    push_plan(catalog, plan, &mut bytes)?;
    push(&mut bytes, " CANDIDATES ")?;
    push(&mut bytes, buffer.format(counts.rows))?;
    push(&mut bytes, " ROWS ")?;
    push(&mut bytes, buffer.format(counts.selected))?;
    push(&mut bytes, "\nEXPLAIN\n")?;
    Ok(Reply { bytes, fault: None })
}

fn push_plan(catalog: &Catalog, plan: &Plan, to: &mut Bytes) -> Result<(), PageError>
    requires { IsWithin (length catalog.now.indexes) plan.now }
    ensures bytes { OnOk result (to.new ≡ to.old ++ plan_text (plan_of (indexes_in catalog.now) plan.now)) }
    ensures err { IfErr result (λ e. e ≡ PageError.Memory) }
{
    match print_plan(catalog, plan, to) {
        Ok(()) => Ok(()),
        Err(_) => Err(PageError::Memory),
    }
}

fn push(to: &mut Bytes, text: &str) -> Result<(), PageError>
    ensures bytes { OnOk result (to.new ≡ to.old ++ text.now) }
    ensures err { IfErr result (λ e. e ≡ PageError.Memory) }
{
    match to.extend_from_slice(text.as_bytes()) {
        Ok(()) => Ok(()),
        Err(_) => Err(PageError::Memory),
    }
}
