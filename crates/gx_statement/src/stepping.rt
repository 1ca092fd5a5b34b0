//! The step of a statement.

ghost use Rattle.std.specs.Prelude.{◌≡◌, ℕ, ◌+◌, ◌≤◌, IfOk, IfErr};
ghost use Rattle.gx_chain.specs.Chains.{IsSound as IsUnbroken};
ghost use Rattle.gx_pages.specs.Footprints.{StaysQuiet};
ghost use Rattle.gx_pages.specs.Pages.{HasCause};
ghost use Rattle.gx_engine.specs.Engines.{reply_of};
ghost use Rattle.gx_parse.specs.Said.{said_of};
ghost use Rattle.gx_parse.specs.Sound.{IsSound};
ghost use Rattle.gx_step.specs.Doing.{AtMostCosts, AtMostGrows, DoneFor, IsOrdinary, LackRoomFor, StandForNone};
ghost use Rattle.gx_statement.specs.Work.{IsWork};

use gx_bytes::Bytes;
use gx_change::{create_index, create_table, drop_index, drop_table, insert, vacuum};
use gx_engine::Reply;
use gx_pages::{PageError, Pages, Steps};
use gx_parse::Statement;
use gx_query::{delete, explain, select};
use gx_step::told;
use std::alloc::Global;
use std::sync::ledger::Ledger;

/// Does a statement on pages that stand for a database. Where it has a fault, no page is changed. What belongs to a session does
/// nothing. Errors: a failure of the disk, pages that stand for no database, no room for more pages, want of memory; then the pages may be
/// changed.
pub fn step<P: Pages, L: Ledger>(
    alloc: Global,
    pages: &mut P,
    statement: &Statement,
    steps: &mut Steps<L>,
) -> Result<Reply, PageError>
    requires { IsSound (said_of statement.now) }
    ensures done { IfOk result (DoneFor P.Pages pages.old pages.new (said_of statement.now)) }
    ensures ordinary { IsWork (said_of statement.now) → IfOk result (λ reply. IsOrdinary (reply_of reply)) }
    ensures cause { IfErr result (HasCause (P.faults pages.old) (P.faults pages.new)
        (λ at expected found. StandForNone P.Pages pages.old)
        (λ count. LackRoomFor P.Pages pages.old (said_of statement.now)) (Unit {0})) }
    ensures grows { AtMostGrows P.Pages pages.old pages.new (said_of statement.now) }
    ensures least { IsUnbroken result → P.heap_fetches pages.new + steps.old ≤ P.heap_fetches pages.old + steps.new }
    ensures most { AtMostCosts P.Pages pages.old (said_of statement.now) steps.old steps.new }
    ensures quiet { StaysQuiet P.Pages pages.old pages.new }
{
    match statement {
        Statement::Nothing => Ok(Reply {
            bytes: Bytes::new(alloc),
            fault: None,
        }),
        Statement::CreateTable { name, columns } => {
            create_table(alloc, pages, name.as_slice(), columns, steps)
        }
        Statement::DropTable { name } => drop_table(alloc, pages, name.as_slice(), steps),
        Statement::CreateIndex {
            name,
            table,
            method,
            column,
            class,
            parameter,
        } => create_index(
            alloc,
            pages,
            name.as_slice(),
            table.as_slice(),
            method.as_slice(),
            column.as_slice(),
            class.as_ref(),
            parameter.as_ref(),
            steps,
        ),
        Statement::DropIndex { name } => drop_index(alloc, pages, name.as_slice(), steps),
        Statement::Insert {
            table,
            columns,
            rows,
        } => insert(
            alloc,
            pages,
            table.as_slice(),
            columns.as_ref(),
            rows,
            steps,
        ),
        Statement::Delete { table, condition } => {
            delete(alloc, pages, table.as_slice(), condition.as_ref(), steps)
        }
        Statement::Select(query) => select(alloc, pages, query, steps),
        Statement::Explain(query) => explain(alloc, pages, query, steps),
        Statement::Vacuum { table } => vacuum(alloc, pages, table.as_slice(), steps),
        Statement::Checkpoint => told(alloc, "CHECKPOINT"),
        Statement::Begin => told(alloc, "BEGIN"),
        Statement::Commit => told(alloc, "COMMIT"),
        Statement::Rollback => told(alloc, "ROLLBACK"),
    }
}
