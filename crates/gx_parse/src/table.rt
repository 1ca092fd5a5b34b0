//! CREATE TABLE, token by token.

ghost use Rattle.std.specs.Prelude.{◌≡◌, IfOk};
ghost use Rattle.gx_parse.specs.Tables as tables;

use crate::given::TypeReader;
use crate::lists::with;
use crate::statement::{ColumnWord, ColumnWords};
use crate::words::{is_close, is_comma, is_open, name, word};
use gx_bytes::{Bytes, NoMemory};
use gx_lexer::Token;
use std::alloc::Global;

/// CREATE TABLE, read as far as this.
#[derive(Debug, Drop)]
pub enum TableReader {
    /// The words.
    Begun,
    /// The table's name.
    Named(Bytes),
    /// `(` or a comma.
    Next(Bytes, ColumnWords),
    /// A column's name.
    Column(Bytes, ColumnWords, Bytes),
    /// And its type.
    Typed(Bytes, ColumnWords, Bytes, TypeReader),
    /// `)`.
    Closed(Bytes, ColumnWords),
}

impl TableReader {
    /// One more token, if the statement goes on with it.
    pub fn take(self, alloc: Global, token: Token) -> Result<Option<TableReader>, NoMemory>
        ensures { IfOk result (λ next. next ≡ tables.table_after self token) }
    {
        match self {
            TableReader::Begun => Ok(begun(token)),
            TableReader::Named(table) => Ok(named(alloc, table, &token)),
            TableReader::Next(table, columns) => Ok(next(table, columns, token)),
            TableReader::Column(table, columns, column) => {
                Ok(behind_column(table, columns, column, token))
            }
            TableReader::Typed(table, columns, column, kind) => {
                typed(table, columns, column, kind, token)
            }
            TableReader::Closed(..) => Ok(None),
        }
    }
}

fn begun(token: Token) -> Option<TableReader>
    ensures { result ≡ tables.begun token }
{
    let table = name(token)?;
    Some(TableReader::Named(table))
}

fn named(alloc: Global, table: Bytes, token: &Token) -> Option<TableReader>
    ensures { result ≡ tables.named table token.now }
{
    if is_open(token) {
        Some(TableReader::Next(table, ColumnWords::new(alloc)))
    } else {
        None
    }
}

fn next(table: Bytes, columns: ColumnWords, token: Token) -> Option<TableReader>
    ensures { result ≡ tables.next table columns token }
{
    let column = name(token)?;
    Some(TableReader::Column(table, columns, column))
}

fn behind_column(
    table: Bytes,
    columns: ColumnWords,
    column: Bytes,
    token: Token,
) -> Option<TableReader>
    ensures { result ≡ tables.behind_column table columns column token }
{
    let word = word(token)?;
    Some(TableReader::Typed(table, columns, column, TypeReader::Word(word)))
}

fn typed(
    table: Bytes,
    columns: ColumnWords,
    column: Bytes,
    kind: TypeReader,
    token: Token,
) -> Result<Option<TableReader>, NoMemory>
    ensures { IfOk result (λ next. next ≡ tables.typed table columns column kind token) }
{
    if kind.takes(&token) {
        return Ok(type_goes_on(table, columns, column, kind, token));
    }
    match kind.finish() {
        Some(kind) => {
            let columns = with(columns, ColumnWord { name: column, kind })?;
            Ok(behind_type(table, columns, &token))
        }
        None => Ok(None),
    }
}

fn type_goes_on(
    table: Bytes,
    columns: ColumnWords,
    column: Bytes,
    kind: TypeReader,
    token: Token,
) -> Option<TableReader>
    ensures { result ≡ tables.type_goes_on table columns column kind token }
{
    let kind = kind.take(token)?;
    Some(TableReader::Typed(table, columns, column, kind))
}

fn behind_type(table: Bytes, columns: ColumnWords, token: &Token) -> Option<TableReader>
    ensures { result ≡ tables.behind_type table columns token.now }
{
    if is_comma(token) {
        Some(TableReader::Next(table, columns))
    } else if is_close(token) {
        Some(TableReader::Closed(table, columns))
    } else {
        None
    }
}
