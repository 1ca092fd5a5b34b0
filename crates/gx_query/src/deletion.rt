//! DELETE from a table.

ghost use Rattle.std.specs.Prelude.{◌≡◌, ◌⊎◌, ℕ, ◌+◌, ◌*◌, ◌≤◌, None, Some, length, option_copied, option_map, IfOk, IfErr};
ghost use Rattle.gx_pages.specs.Footprints.{StaysQuiet};
ghost use Rattle.gx_pages.specs.Pages.{HasCause};
ghost use Rattle.gx_engine.specs.Engines.{reply_of};
ghost use Rattle.gx_model.specs.Database.{Table};
ghost use Rattle.gx_parse.specs.Trees.{tree_of};
ghost use Rattle.gx_parse.specs.Sound.{WhereHasLiterals};
ghost use Rattle.gx_step.specs.Doing.{IsOrdinary};
ghost use Rattle.gx_pages.specs.Rows.{IsRising};
ghost use Rattle.gx_model.specs.Checks.{Find};
ghost use Rattle.gx_model.specs.Conditions.{BindsWhere, where_checks};
ghost use Rattle.gx_model.specs.Truth.{Bound};
ghost use Rattle.std.specs.Prelude.{Option};
ghost use Rattle.gx_query.specs.Answers.{Passes, Refused, delete_reply};
ghost use Rattle.gx_query.specs.Tables.{HoldsTable, Removed};
ghost use Rattle.gx_query.specs.Walks.{Breaks};

use crate::filter::filter_of;
use crate::target::refuse;
use crate::visitors::Gathered;
use crate::walk::walk_rows;
use gx_bytes::Bytes;
use gx_catalog::TableInfo;
use gx_engine::Reply;
use gx_pages::{Bitmap, PageError, Pages, RowRef, Steps};
use gx_parse::Condition;
use gx_step::counted;
use std::alloc::Global;
use std::sync::ledger::Ledger;

/// Removes the rows of a table of which the condition is true.
pub fn delete_from<P: Pages, L: Ledger>(
    alloc: Global,
    pages: &mut P,
    info: &TableInfo,
    condition: Option<&Condition>,
    steps: &mut Steps<L>,
) -> Result<Reply, PageError>
    requires literals { WhereHasLiterals (option_map tree_of (option_copied condition)) }
    ensures answers { IfOk result (λ reply. P.tells → (t : Table) (table : HoldsTable P.Pages pages.old info.now t)
        → (Refused (where_checks t.columns (option_map tree_of (option_copied condition.entry))) (reply_of reply) × (P.map pages.new ≡ P.map pages.old))
        ⊎ (Find (where_checks t.columns (option_map tree_of (option_copied condition.entry))) None × ((bound : Option Bound) × BindsWhere t.columns (option_map tree_of (option_copied condition.entry)) bound
        × Removed P.Pages pages.old pages.new info.now t bound table.feet table.free × (reply_of reply ≡ delete_reply t bound)))) }
    ensures ordinary { IfOk result (λ reply. IsOrdinary (reply_of reply)) }
    ensures cause { IfErr result (HasCause (P.faults pages.old) (P.faults pages.new)
        (λ at expected found. P.tells → (t : Table) → HoldsTable P.Pages pages.old info.now t → ⊥) (λ _. ⊥) (Unit {0})) }
    ensures count { P.count pages.new ≡ P.count pages.old }
    ensures ticks { P.heap_fetches pages.new + steps.old ≤ P.heap_fetches pages.old + steps.new }
    ensures most { P.tells → (t : Table) → HoldsTable P.Pages pages.old info.now t → (steps.new ≡ steps.old)
        ⊎ (Passes (where_checks t.columns (option_map tree_of (option_copied condition.entry))) t.columns (option_map tree_of (option_copied condition.entry)) × (steps.new ≤ steps.old + 2 * (t.next + 1))) }
    ensures quiet { StaysQuiet P.Pages pages.old pages.new }
{
    let columns = info.columns.as_slice();
    let filter = match filter_of(alloc, columns, condition) {
        Ok(filter) => filter,
        Err(refusal) => return refuse(alloc, refusal),
    };
    let mut gathered = Gathered::new(alloc);
    let counts = walk_rows(
        alloc,
        pages,
        &info.heap,
        columns,
        &filter,
        &mut gathered,
        steps,
    )?;
    let rows = bitmap_of(alloc, gathered.as_slice())?;
    let mut heap = info.heap;
    heap.remove(pages, &rows, steps)?;
    counted(Bytes::new(alloc), "DELETE ", counts.selected)
}

// These rows as a bitmap. Broken where their numbers don't rise.
fn bitmap_of(alloc: Global, rows: &[RowRef]) -> Result<Bitmap, PageError>
    ensures same { IfOk result (λ bitmap. bitmap ≡ rows.now) }
    ensures cause { IfErr result (Breaks (¬ IsRising rows.now)) }
{
    let mut bitmap = Bitmap::new(alloc);
    for row in rows {
        if !bitmap.is_below(row.number) {
            return Err(PageError::Broken {
                page: row.page,
                expected: 1,
                found: 0,
            });
        }
        let Ok(()) = bitmap.push(*row) else {
            return Err(PageError::Memory);
        };
    }
    Ok(bitmap)
}
