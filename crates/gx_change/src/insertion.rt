//! INSERT.

ghost use Rattle.std.specs.Prelude.{◌≡◌, ℕ, ◌+◌, ◌^◌, ◌<◌, ◌≤◌, List, ◌++◌, length, option_copied, IfOk, IfErr, OnOk};
ghost use Rattle.std.specs.List.{AllByRecursion};
ghost use Rattle.gx_pages.specs.Footprints.{KeepsPages, StaysQuiet};
ghost use Rattle.gx_pages.specs.Pages.{HasCause};
ghost use Rattle.gx_chain.specs.Chains.{IsSound as IsUnbroken};
ghost use Rattle.gx_heap.specs.Heaps.{HoldsHeap, HoldsNoHeap, Row};
ghost use Rattle.gx_engine.specs.Engines.{reply_of};
ghost use Rattle.gx_parse.specs.Said.{Insert};
ghost use Rattle.gx_parse.specs.Sound.{IsSound};
ghost use Rattle.gx_step.specs.Doing.{AtMostCosts, AtMostGrows, DoneFor, IsOrdinary, LackRoomFor, StandForNone};
ghost use Rattle.gx_change.specs.Appended.{AreNumbered};

use crate::appending::append_rows;
use gx_bytes::Bytes;
use gx_engine::Reply;
use gx_model::Refusal;
use gx_pages::{PageError, Pages, Steps};
use gx_parse::{GivenRows, Names};
use gx_step::{counted, load, refused};
use gx_target::row_bytes;
use std::alloc::Global;
use std::sync::ledger::Ledger;

/// INSERT: rows behind the others. All are read before the first is appended.
pub fn insert<P: Pages, L: Ledger>(
    alloc: Global,
    pages: &mut P,
    table: &[u8],
    listed: Option<&Names>,
    rows: &GivenRows,
    steps: &mut Steps<L>,
) -> Result<Reply, PageError>
    requires { IsSound (Insert table.now (option_copied listed) rows.now) }
    ensures done { IfOk result (DoneFor P.Pages pages.old pages.new (Insert table.now (option_copied listed.entry) rows.now)) }
    ensures ordinary { IfOk result (λ reply. IsOrdinary (reply_of reply)) }
    ensures cause { IfErr result (HasCause (P.faults pages.old) (P.faults pages.new)
        (λ at expected found. StandForNone P.Pages pages.old)
        (λ count. LackRoomFor P.Pages pages.old (Insert table.now (option_copied listed.entry) rows.now)) (Unit {0})) }
    ensures grows { AtMostGrows P.Pages pages.old pages.new (Insert table.now (option_copied listed.entry) rows.now) }
    ensures least { IsUnbroken result → P.heap_fetches pages.new + steps.old ≤ P.heap_fetches pages.old + steps.new }
    ensures most { AtMostCosts P.Pages pages.old (Insert table.now (option_copied listed.entry) rows.now) steps.old steps.new }
    ensures quiet { StaysQuiet P.Pages pages.old pages.new }
{
    gx_step::tables_are_found();
    gx_catalog::found_among();
    gx_model::stays_valid();
    gx_model::one_turn();
    let mut catalog = load(alloc, pages)?;
    let Some(info) = catalog.table(table) else {
        return refused(alloc, 2);
    };
    let number = info.number;
    let mut heap = info.heap;
    let columns = info.columns.as_slice();
    match row_bytes(alloc, columns, listed, heap.next, rows.as_slice()) {
        Ok(bytes) => {
            append_rows(alloc, pages, &mut heap, bytes.as_slice(), steps)?;
            catalog.set_heap(alloc, pages, number, heap)?;
            counted(Bytes::new(alloc), "INSERT 0 ", rows.len() as u64)
        }
        Err(Refusal::Fault { number }) => refused(alloc, number),
        Err(Refusal::Memory) => Err(PageError::Memory),
    }
}
