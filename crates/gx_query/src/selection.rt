//! SELECT of a table.

ghost use Rattle.std.specs.Prelude.{◌≡◌, ◌⊎◌, ℕ, ◌+◌, ◌≤◌, List, map, IfOk, IfErr};
ghost use Rattle.gx_pages.specs.Footprints.{StaysQuiet};
ghost use Rattle.gx_pages.specs.Pages.{HasCause};
ghost use Rattle.gx_engine.specs.Engines.{reply_of};
ghost use Rattle.gx_model.specs.Database.{Table, AreDistinct};
ghost use Rattle.gx_parse.specs.Said.{query_of};
ghost use Rattle.gx_parse.specs.Sound.{WhereHasLiterals};
ghost use Rattle.gx_step.specs.Doing.{IsOrdinary};
ghost use Rattle.gx_query.specs.Answers.{Answers, Passes, checks_of, select_reply};
ghost use Rattle.gx_query.specs.Tables.{HoldsTable};

use crate::target::{Target, refuse, target_of};
use crate::visitors::Lines;
use crate::walk::walk_rows;
use gx_bytes::Bytes;
use gx_catalog::TableInfo;
use gx_engine::Reply;
use gx_pages::{PageError, Pages, Steps};
use gx_parse::Select;
use gx_step::counted;
use std::alloc::Global;
use std::sync::ledger::Ledger;

/// The lines of the rows of a table that a query asks for, and how many they are.
pub fn select_from<P: Pages, L: Ledger>(
    alloc: Global,
    pages: &mut P,
    info: &TableInfo,
    query: &Select,
    steps: &mut Steps<L>,
) -> Result<Reply, PageError>
    requires literals { WhereHasLiterals ((query_of query.now).condition) }
    requires columns { AreDistinct (map (λ c. c.name) info.now.columns) }
    ensures answers { IfOk result (λ reply. P.tells → (t : Table) → HoldsTable P.Pages pages.old info.now t → Answers (select_reply (query_of query.now) t) (query_of query.now) t (reply_of reply)) }
    ensures map { P.map pages.new ≡ P.map pages.old }
    ensures ordinary { IfOk result (λ reply. IsOrdinary (reply_of reply)) }
    ensures cause { IfErr result (HasCause (P.faults pages.old) (P.faults pages.new)
        (λ at expected found. P.tells → (t : Table) → HoldsTable P.Pages pages.old info.now t → ⊥) (λ _. ⊥) (Unit {0})) }
    ensures count { P.count pages.new ≡ P.count pages.old }
    ensures ticks { P.heap_fetches pages.new + steps.old ≤ P.heap_fetches pages.old + steps.new }
    ensures most { (steps.new ≡ steps.old) ⊎ (Passes (checks_of info.now.columns (query_of query.now)) info.now.columns ((query_of query.now).condition) × (steps.new ≤ steps.old + info.now.heap.next)) }
    ensures quiet { StaysQuiet P.Pages pages.old pages.new }
{
    let columns = info.columns.as_slice();
    let Target { places, filter } = match target_of(alloc, columns, query) {
        Ok(target) => target,
        Err(refusal) => return refuse(alloc, refusal),
    };
    let mut lines = Lines {
        places,
        bytes: Bytes::new(alloc),
    };
    let counts = walk_rows(
        alloc, pages, &info.heap, columns, &filter, &mut lines, steps,
    )?;
    counted(lines.bytes, "SELECT ", counts.selected)
}
