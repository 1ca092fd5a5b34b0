//! CREATE INDEX and DROP INDEX. No class of indexes is there yet, so both always have a fault.

ghost use Rattle.std.specs.Prelude.{◌≡◌, ℕ, ◌+◌, ◌≤◌, bytes_eq, is_some, find, option_copied, Option, IfOk, IfErr, List};
ghost use Rattle.gx_pages.specs.Footprints.{StaysQuiet};
ghost use Rattle.gx_pages.specs.Pages.{HasCause};
ghost use Rattle.gx_chain.specs.Chains.{IsSound as IsUnbroken};
ghost use Rattle.gx_catalog.specs.Validity.{table_named};
ghost use Rattle.gx_engine.specs.Engines.{reply_of};
ghost use Rattle.gx_model.specs.Database.{column_named};
ghost use Rattle.gx_parse.specs.Said.{CreateIndex, DropIndex};
ghost use Rattle.gx_parse.specs.Sound.{IsSound};
ghost use Rattle.gx_step.specs.Doing.{AtMostCosts, DoneFor, IsOrdinary, StandForNone};
ghost use Rattle.gx_value.specs.Classes.{method_named};
ghost use Rattle.gx_change.specs.Faults.{index_fault_of};

use gx_bytes::Bytes;
use gx_catalog::Catalog;
use gx_engine::Reply;
use gx_pages::{PageError, Pages, Steps};
use gx_parse::Parameter;
use gx_step::{load, refused};
use gx_value::{Column, Method};
use std::alloc::Global;
use std::str;
use std::sync::ledger::Ledger;

/// CREATE INDEX, which always has a fault: E2, E4, E14 or E19.
pub fn create_index<P: Pages, L: Ledger>(
    alloc: Global,
    pages: &mut P,
    name: &[u8],
    table: &[u8],
    method: &[u8],
    column: &[u8],
    class: Option<&Bytes>,
    parameter: Option<&Parameter>,
    steps: &mut Steps<L>,
) -> Result<Reply, PageError>
    requires { IsSound (CreateIndex name.now table.now method.now column.now (option_copied class) (option_copied parameter)) }
    ensures done { IfOk result (DoneFor P.Pages pages.old pages.new (CreateIndex name.now table.now method.now column.now (option_copied class.entry) (option_copied parameter.entry))) }
    ensures ordinary { IfOk result (λ reply. IsOrdinary (reply_of reply)) }
    ensures cause { IfErr result (HasCause (P.faults pages.old) (P.faults pages.new)
        (λ at expected found. StandForNone P.Pages pages.old) (λ count. ⊥) (Unit {0})) }
    ensures count { P.count pages.new ≡ P.count pages.old }
    ensures least { IsUnbroken result → P.heap_fetches pages.new + steps.old ≤ P.heap_fetches pages.old + steps.new }
    ensures most { AtMostCosts P.Pages pages.old (CreateIndex name.now table.now method.now column.now (option_copied class.entry) (option_copied parameter.entry)) steps.old steps.new }
    ensures quiet { StaysQuiet P.Pages pages.old pages.new }
{
    gx_step::tables_are_found();
    let catalog = load(alloc, pages)?;
    let fault = index_fault(&catalog, table, method, column, class.is_some());
    refused(alloc, fault)
}

/// DROP INDEX, which always has the fault E12.
pub fn drop_index<P: Pages, L: Ledger>(
    alloc: Global,
    pages: &mut P,
    name: &[u8],
    steps: &mut Steps<L>,
) -> Result<Reply, PageError>
    requires { IsSound (DropIndex name.now) }
    ensures done { IfOk result (DoneFor P.Pages pages.old pages.new (DropIndex name.now)) }
    ensures ordinary { IfOk result (λ reply. IsOrdinary (reply_of reply)) }
    ensures cause { IfErr result (HasCause (P.faults pages.old) (P.faults pages.new)
        (λ at expected found. StandForNone P.Pages pages.old) (λ count. ⊥) (Unit {0})) }
    ensures count { P.count pages.new ≡ P.count pages.old }
    ensures least { IsUnbroken result → P.heap_fetches pages.new + steps.old ≤ P.heap_fetches pages.old + steps.new }
    ensures most { AtMostCosts P.Pages pages.old (DropIndex name.now) steps.old steps.new }
    ensures quiet { StaysQuiet P.Pages pages.old pages.new }
{
    refused(alloc, 12)
}

/// The fault of a CREATE INDEX: no table, no column, no such method or class, or no default class.
fn index_fault(catalog: &Catalog, table: &[u8], method: &[u8], column: &[u8], has_class: bool) -> u8
    ensures { result ≡ index_fault_of (table_named table.now catalog.now.tables) method.now column.now has_class }
{
    let Some(info) = catalog.table(table) else {
        return 2;
    };
    if !has_column(info.columns.as_slice(), column) {
        return 4;
    }
    if has_class || !is_method(method) {
        14
    } else {
        19
    }
}

/// Whether a column has this name.
fn has_column(columns: &[Column], name: &[u8]) -> bool
    ensures { result ≡ is_some (column_named columns.now name.now) }
{
    column_of(columns, name).is_some()
}

/// The column of this name.
fn column_of<'a>(columns: &'a [Column], name: &[u8]) -> Option<&'a Column>
    ensures { option_copied result ≡ column_named columns.now name.now }
{
    columns
        .iter()
        .find(|column| is_same(column.name.as_slice(), name))
}

/// Whether both are the same bytes.
fn is_same(one: &[u8], other: &[u8]) -> bool
    ensures { result ≡ bytes_eq one.now other.now }
{
    one == other
}

/// Whether an index method has this name.
fn is_method(word: &[u8]) -> bool
    ensures { result ≡ is_some (method_named word.now) }
{
    match str::from_utf8(word) {
        Ok(text) => Method::named(text).is_some(),
        Err(_) => false,
    }
}
