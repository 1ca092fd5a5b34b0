//! SELECT, EXPLAIN ANALYZE and DELETE.

ghost use Rattle.std.specs.Prelude.{◌≡◌, ℕ, ◌+◌, ◌≤◌, option_copied, option_map, IfOk, IfErr};
ghost use Rattle.gx_chain.specs.Chains.{IsSound};
ghost use Rattle.gx_pages.specs.Footprints.{StaysQuiet};
ghost use Rattle.gx_pages.specs.Pages.{HasCause};
ghost use Rattle.gx_engine.specs.Engines.{reply_of};
ghost use Rattle.gx_parse.specs.Said as said;
ghost use Rattle.gx_parse.specs.Said.{query_of};
ghost use Rattle.gx_parse.specs.Trees.{tree_of};
ghost use Rattle.gx_parse.specs.Sound as sound;
ghost use Rattle.gx_step.specs.Doing.{AtMostCosts, DoneFor, IsOrdinary, StandForNone};

use crate::deletion::delete_from;
use crate::explanation::explain_from;
use crate::selection::select_from;
use gx_engine::Reply;
use gx_pages::{PageError, Pages, Steps};
use gx_parse::{Condition, Select};
use gx_step::{load, refused, tables_are_found};
use std::alloc::Global;
use std::sync::ledger::Ledger;

/// SELECT: a line for each row of which the condition is true, and how many they are.
pub fn select<P: Pages, L: Ledger>(
    alloc: Global,
    pages: &mut P,
    query: &Select,
    steps: &mut Steps<L>,
) -> Result<Reply, PageError>
    requires { sound.IsSound (said.Select (query_of query.now)) }
    ensures done { IfOk result (DoneFor P.Pages pages.old pages.new (said.Select (query_of query.now))) }
    ensures ordinary { IfOk result (λ reply. IsOrdinary (reply_of reply)) }
    ensures cause { IfErr result (HasCause (P.faults pages.old) (P.faults pages.new)
        (λ at expected found. StandForNone P.Pages pages.old)
        (λ count. ⊥) (Unit {0})) }
    ensures count { P.count pages.new ≡ P.count pages.old }
    ensures least { IsSound result → P.heap_fetches pages.new + steps.old ≤ P.heap_fetches pages.old + steps.new }
    ensures most { AtMostCosts P.Pages pages.old (said.Select (query_of query.now)) steps.old steps.new }
    ensures quiet { StaysQuiet P.Pages pages.old pages.new }
{
    gx_model::one_turn();
    tables_are_found();
    let catalog = load(alloc, pages)?;
    let Some(info) = catalog.table(query.table.as_slice()) else {
        return refused(alloc, 2);
    };
    select_from(alloc, pages, info, query, steps)
}

/// EXPLAIN ANALYZE: the plan, how many rows it finds, and of how many the condition is true.
pub fn explain<P: Pages, L: Ledger>(
    alloc: Global,
    pages: &mut P,
    query: &Select,
    steps: &mut Steps<L>,
) -> Result<Reply, PageError>
    requires { sound.IsSound (said.Explain (query_of query.now)) }
    ensures done { IfOk result (DoneFor P.Pages pages.old pages.new (said.Explain (query_of query.now))) }
    ensures ordinary { IfOk result (λ reply. IsOrdinary (reply_of reply)) }
    ensures cause { IfErr result (HasCause (P.faults pages.old) (P.faults pages.new)
        (λ at expected found. StandForNone P.Pages pages.old)
        (λ count. ⊥) (Unit {0})) }
    ensures count { P.count pages.new ≡ P.count pages.old }
    ensures least { IsSound result → P.heap_fetches pages.new + steps.old ≤ P.heap_fetches pages.old + steps.new }
    ensures most { AtMostCosts P.Pages pages.old (said.Explain (query_of query.now)) steps.old steps.new }
    ensures quiet { StaysQuiet P.Pages pages.old pages.new }
{
    gx_model::one_turn();
    tables_are_found();
    let catalog = load(alloc, pages)?;
    let Some(info) = catalog.table(query.table.as_slice()) else {
        return refused(alloc, 2);
    };
    explain_from(alloc, pages, &catalog, info, query, steps)
}

/// DELETE: the rows of which the condition is true go.
pub fn delete<P: Pages, L: Ledger>(
    alloc: Global,
    pages: &mut P,
    table: &[u8],
    condition: Option<&Condition>,
    steps: &mut Steps<L>,
) -> Result<Reply, PageError>
    requires { sound.IsSound (said.Delete table.now (option_map tree_of (option_copied condition))) }
    ensures done { IfOk result (DoneFor P.Pages pages.old pages.new (said.Delete table.now (option_map tree_of (option_copied condition.entry)))) }
    ensures ordinary { IfOk result (λ reply. IsOrdinary (reply_of reply)) }
    ensures cause { IfErr result (HasCause (P.faults pages.old) (P.faults pages.new)
        (λ at expected found. StandForNone P.Pages pages.old)
        (λ count. ⊥) (Unit {0})) }
    ensures count { P.count pages.new ≡ P.count pages.old }
    ensures least { IsSound result → P.heap_fetches pages.new + steps.old ≤ P.heap_fetches pages.old + steps.new }
    ensures most { AtMostCosts P.Pages pages.old (said.Delete table.now (option_map tree_of (option_copied condition.entry))) steps.old steps.new }
    ensures quiet { StaysQuiet P.Pages pages.old pages.new }
{
    gx_model::one_turn();
    gx_model::stays_valid();
    tables_are_found();
    let catalog = load(alloc, pages)?;
    let Some(info) = catalog.table(table) else {
        return refused(alloc, 2);
    };
    delete_from(alloc, pages, info, condition, steps)
}
