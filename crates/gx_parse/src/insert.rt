//! INSERT, token by token.

ghost use Rattle.std.specs.Prelude.{◌≡◌, IfOk};
ghost use Rattle.gx_parse.specs.Inserts as inserts;
ghost use Rattle.gx_parse.specs.Literals as literals;

use crate::given::GivenReader;
use crate::held::Held;
use crate::lists::{Names, with};
use crate::statement::{GivenRow, GivenRows};
use crate::words::{is_close, is_comma, is_open, is_word, name};
use gx_bytes::{Bytes, NoMemory};
use gx_lexer::Token;
use std::alloc::Global;

/// The table, the columns and the rows so far.
#[derive(Debug, Drop)]
pub struct InsertParts {
    pub table: Bytes,
    pub columns: Option<Names>,
    pub rows: GivenRows,
}

/// INSERT, read as far as this.
#[derive(Debug, Drop)]
pub enum InsertReader {
    /// The word.
    Begun,
    /// INTO.
    Into,
    /// The table's name.
    Named(Bytes),
    /// `(` or a comma of the column list.
    Next(Bytes, Names),
    /// A column's name.
    Listed(Bytes, Names),
    /// The list's `)`.
    Columns(Bytes, Names),
    /// VALUES, or a comma between rows.
    Values(Held<InsertParts>),
    /// `(` or a comma of a row.
    Value(Held<InsertParts>, GivenRow),
    /// A literal of a row.
    Given(Held<InsertParts>, GivenRow, GivenReader),
    /// A row's `)`.
    Closed(Held<InsertParts>),
}

impl InsertReader {
    /// One more token, if the statement goes on with it.
    pub fn take(self, alloc: Global, token: Token) -> Result<Option<InsertReader>, NoMemory>
        ensures { IfOk result (λ next. next ≡ inserts.insert_after self token) }
    {
        match self {
            InsertReader::Begun => Ok(into(&token)),
            InsertReader::Into => Ok(table(token)),
            InsertReader::Named(table) => behind_table(alloc, table, &token),
            InsertReader::Next(table, columns) => column(table, columns, token),
            InsertReader::Listed(table, columns) => Ok(behind_column(table, columns, &token)),
            InsertReader::Columns(table, columns) => values(alloc, table, Some(columns), &token),
            InsertReader::Values(parts) => Ok(row(alloc, parts, &token)),
            InsertReader::Value(parts, row) => value(alloc, parts, row, token),
            InsertReader::Given(parts, row, given) => goes_on(alloc, parts, row, given, token),
            InsertReader::Closed(parts) => Ok(behind_row(parts, &token)),
        }
    }
}

fn into(token: &Token) -> Option<InsertReader>
    ensures { result ≡ inserts.into token.now }
{
    if is_word(token, b"into") {
        Some(InsertReader::Into)
    } else {
        None
    }
}

fn table(token: Token) -> Option<InsertReader>
    ensures { result ≡ inserts.table token }
{
    let table = name(token)?;
    Some(InsertReader::Named(table))
}

fn behind_table(
    alloc: Global,
    table: Bytes,
    token: &Token,
) -> Result<Option<InsertReader>, NoMemory>
    ensures { IfOk result (λ next. next ≡ inserts.behind_table table token.now) }
{
    if is_open(token) {
        Ok(Some(InsertReader::Next(table, Names::new(alloc))))
    } else {
        values(alloc, table, None, token)
    }
}

fn values(
    alloc: Global,
    table: Bytes,
    columns: Option<Names>,
    token: &Token,
) -> Result<Option<InsertReader>, NoMemory>
    ensures { IfOk result (λ next. next ≡ inserts.values table columns token.now) }
{
    if is_word(token, b"values") {
        let parts = InsertParts {
            table,
            columns,
            rows: GivenRows::new(alloc),
        };
        Ok(Some(InsertReader::Values(Held::new(alloc, parts)?)))
    } else {
        Ok(None)
    }
}

fn column(table: Bytes, columns: Names, token: Token) -> Result<Option<InsertReader>, NoMemory>
    ensures { IfOk result (λ next. next ≡ inserts.column table columns token) }
{
    match name(token) {
        Some(column) => Ok(Some(InsertReader::Listed(table, with(columns, column)?))),
        None => Ok(None),
    }
}

fn behind_column(table: Bytes, columns: Names, token: &Token) -> Option<InsertReader>
    ensures { result ≡ inserts.behind_column table columns token.now }
{
    if is_comma(token) {
        Some(InsertReader::Next(table, columns))
    } else if is_close(token) {
        Some(InsertReader::Columns(table, columns))
    } else {
        None
    }
}

fn row(alloc: Global, parts: Held<InsertParts>, token: &Token) -> Option<InsertReader>
    ensures { result ≡ inserts.row parts token.now }
{
    if is_open(token) {
        Some(InsertReader::Value(parts, GivenRow::new(alloc)))
    } else {
        None
    }
}

fn value(
    alloc: Global,
    parts: Held<InsertParts>,
    row: GivenRow,
    token: Token,
) -> Result<Option<InsertReader>, NoMemory>
    ensures { IfOk result (λ next. next ≡ inserts.value parts row token) }
{
    match GivenReader::begin(alloc, token)? {
        Some(given) => Ok(Some(InsertReader::Given(parts, row, given))),
        None => Ok(None),
    }
}

fn goes_on(
    alloc: Global,
    parts: Held<InsertParts>,
    row: GivenRow,
    given: GivenReader,
    token: Token,
) -> Result<Option<InsertReader>, NoMemory>
    ensures { IfOk result (λ next. next ≡ inserts.goes_on parts row given token) }
{
    if given.takes(&token) {
        match given.take(alloc, token)? {
            Some(given) => Ok(Some(InsertReader::Given(parts, row, given))),
            None => Ok(None),
        }
    } else {
        ends(alloc, parts, row, given, &token)
    }
}

fn ends(
    alloc: Global,
    parts: Held<InsertParts>,
    row: GivenRow,
    given: GivenReader,
    token: &Token,
) -> Result<Option<InsertReader>, NoMemory>
    ensures { IfOk result (λ next. next ≡ inserts.ends parts row token.now (literals.given_of given)) }
{
    match given.finish() {
        Some(given) => behind_value(alloc, parts, with(row, given)?, token),
        None => Ok(None),
    }
}

fn behind_value(
    alloc: Global,
    parts: Held<InsertParts>,
    row: GivenRow,
    token: &Token,
) -> Result<Option<InsertReader>, NoMemory>
    ensures { IfOk result (λ next. next ≡ inserts.behind_value parts row token.now) }
{
    if is_comma(token) {
        return Ok(Some(InsertReader::Value(parts, row)));
    }
    if is_close(token) {
        return Ok(Some(InsertReader::Closed(and_row(alloc, parts, row)?)));
    }
    Ok(None)
}

fn and_row(
    alloc: Global,
    parts: Held<InsertParts>,
    row: GivenRow,
) -> Result<Held<InsertParts>, NoMemory>
    ensures { IfOk result (λ longer. longer ≡ inserts.and_row parts row) }
{
    let mut parts = parts.into_inner();
    parts.rows.push(row)?;
    Held::new(alloc, parts)
}

fn behind_row(parts: Held<InsertParts>, token: &Token) -> Option<InsertReader>
    ensures { result ≡ inserts.behind_row parts token.now }
{
    if is_comma(token) {
        Some(InsertReader::Values(parts))
    } else {
        None
    }
}
