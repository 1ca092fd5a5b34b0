//! CREATE TABLE and DROP TABLE.

ghost use Rattle.std.specs.Prelude.{◌≡◌, ◌||◌, nat_le, nat_lt, ℕ, ◌+◌, ◌≤◌, IfOk, IfErr};
ghost use Rattle.gx_pages.specs.Footprints.{StaysQuiet};
ghost use Rattle.gx_pages.specs.Pages.{HasCause};
ghost use Rattle.gx_chain.specs.Chains.{IsSound as IsUnbroken};
ghost use Rattle.gx_engine.specs.Engines.{reply_of};
ghost use Rattle.gx_parse.specs.Said.{CreateTable, DropTable};
ghost use Rattle.gx_parse.specs.Sound.{IsSound};
ghost use Rattle.gx_step.specs.Doing.{AtMostCosts, AtMostGrows, DoneFor, IsOrdinary, LackRoomFor, StandForNone};

use gx_bytes::Bytes;
use gx_catalog::TableInfo;
use gx_engine::Reply;
use gx_heap::Heap;
use gx_model::Refusal;
use gx_pages::{PageError, Pages, Steps};
use gx_parse::ColumnWords;
use gx_step::{load, refused, told};
use gx_target::new_columns;
use std::alloc::Global;
use std::sync::ledger::Ledger;

/// CREATE TABLE: a table without rows behind the others.
pub fn create_table<P: Pages, L: Ledger>(
    alloc: Global,
    pages: &mut P,
    name: &[u8],
    columns: &ColumnWords,
    steps: &mut Steps<L>,
) -> Result<Reply, PageError>
    requires { IsSound (CreateTable name.now columns.now) }
    ensures done { IfOk result (DoneFor P.Pages pages.old pages.new (CreateTable name.now columns.now)) }
    ensures ordinary { IfOk result (λ reply. IsOrdinary (reply_of reply)) }
    ensures cause { IfErr result (HasCause (P.faults pages.old) (P.faults pages.new)
        (λ at expected found. StandForNone P.Pages pages.old)
        (λ count. LackRoomFor P.Pages pages.old (CreateTable name.now columns.now)) (Unit {0})) }
    ensures grows { AtMostGrows P.Pages pages.old pages.new (CreateTable name.now columns.now) }
    ensures least { IsUnbroken result → P.heap_fetches pages.new + steps.old ≤ P.heap_fetches pages.old + steps.new }
    ensures most { AtMostCosts P.Pages pages.old (CreateTable name.now columns.now) steps.old steps.new }
    ensures quiet { StaysQuiet P.Pages pages.old pages.new }
{
    gx_step::tables_are_found();
    gx_catalog::one_more_table();
    gx_model::stays_valid();
    gx_model::one_turn();
    let mut catalog = load(alloc, pages)?;
    if let Some(_table) = catalog.table(name) {
        return refused(alloc, 3);
    }
    if are_too_many(catalog.tables().len(), columns.len()) {
        return refused(alloc, 16);
    }
    match new_columns(alloc, columns.as_slice()) {
        Ok(columns) => {
            let Ok(name) = Bytes::from_slice(alloc, name) else {
                return Err(PageError::Memory);
            };
            let heap = Heap::create(pages)?;
            let number = catalog.free_number();
            let table = TableInfo {
                name,
                number,
                columns,
                heap,
            };
            catalog.add_table(alloc, pages, table)?;
            told(alloc, "CREATE TABLE")
        }
        Err(Refusal::Fault { number }) => refused(alloc, number),
        Err(Refusal::Memory) => Err(PageError::Memory),
    }
}

/// DROP TABLE: the table goes with its rows.
pub fn drop_table<P: Pages, L: Ledger>(
    alloc: Global,
    pages: &mut P,
    name: &[u8],
    steps: &mut Steps<L>,
) -> Result<Reply, PageError>
    requires { IsSound (DropTable name.now) }
    ensures done { IfOk result (DoneFor P.Pages pages.old pages.new (DropTable name.now)) }
    ensures ordinary { IfOk result (λ reply. IsOrdinary (reply_of reply)) }
    ensures cause { IfErr result (HasCause (P.faults pages.old) (P.faults pages.new)
        (λ at expected found. StandForNone P.Pages pages.old) (λ count. ⊥) (Unit {0})) }
    ensures count { P.count pages.new ≡ P.count pages.old }
    ensures least { IsUnbroken result → P.heap_fetches pages.new + steps.old ≤ P.heap_fetches pages.old + steps.new }
    ensures most { AtMostCosts P.Pages pages.old (DropTable name.now) steps.old steps.new }
    ensures quiet { StaysQuiet P.Pages pages.old pages.new }
{
    gx_step::tables_are_found();
    gx_catalog::found_among();
    gx_model::stays_valid();
    let mut catalog = load(alloc, pages)?;
    let Some(info) = catalog.table(name) else {
        return refused(alloc, 2);
    };
    let number = info.number;
    let heap = info.heap;
    heap.drop_all(pages, steps)?;
    catalog.drop_table(alloc, pages, number)?;
    told(alloc, "DROP TABLE")
}

/// Whether there are as many tables as may be, or more columns.
fn are_too_many(tables: usize, columns: usize) -> bool
    ensures { result ≡ (nat_le 256 tables || nat_lt 32 columns) }
{
    tables >= 256 || columns > 32
}
