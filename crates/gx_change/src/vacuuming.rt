//! VACUUM.

ghost use Rattle.std.specs.Prelude.{◌≡◌, ℕ, ◌+◌, ◌≤◌, IfOk, IfErr};
ghost use Rattle.gx_pages.specs.Footprints.{StaysQuiet};
ghost use Rattle.gx_pages.specs.Pages.{HasCause};
ghost use Rattle.gx_chain.specs.Chains.{IsSound as IsUnbroken};
ghost use Rattle.gx_engine.specs.Engines.{reply_of};
ghost use Rattle.gx_parse.specs.Said.{Vacuum};
ghost use Rattle.gx_parse.specs.Sound.{IsSound};
ghost use Rattle.gx_step.specs.Doing.{AtMostCosts, DoneFor, IsOrdinary, StandForNone};

use gx_engine::Reply;
use gx_pages::{PageError, Pages, Steps};
use gx_step::{load, refused, told};
use std::alloc::Global;
use std::sync::ledger::Ledger;

/// VACUUM: pages without rows are given back.
pub fn vacuum<P: Pages, L: Ledger>(
    alloc: Global,
    pages: &mut P,
    table: &[u8],
    steps: &mut Steps<L>,
) -> Result<Reply, PageError>
    requires { IsSound (Vacuum table.now) }
    ensures done { IfOk result (DoneFor P.Pages pages.old pages.new (Vacuum table.now)) }
    ensures ordinary { IfOk result (λ reply. IsOrdinary (reply_of reply)) }
    ensures cause { IfErr result (HasCause (P.faults pages.old) (P.faults pages.new)
        (λ at expected found. StandForNone P.Pages pages.old) (λ count. ⊥) (Unit {0})) }
    ensures count { P.count pages.new ≡ P.count pages.old }
    ensures least { IsUnbroken result → P.heap_fetches pages.new + steps.old ≤ P.heap_fetches pages.old + steps.new }
    ensures most { AtMostCosts P.Pages pages.old (Vacuum table.now) steps.old steps.new }
    ensures quiet { StaysQuiet P.Pages pages.old pages.new }
{
    gx_step::tables_are_found();
    gx_catalog::found_among();
    let mut catalog = load(alloc, pages)?;
    let Some(info) = catalog.table(table) else {
        return refused(alloc, 2);
    };
    let number = info.number;
    let mut heap = info.heap;
    heap.vacuum(pages, steps)?;
    catalog.set_heap(alloc, pages, number, heap)?;
    told(alloc, "VACUUM")
}
