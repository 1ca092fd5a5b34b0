//! SELECT, EXPLAIN ANALYZE and DELETE up to their condition, token by token.

ghost use Rattle.std.specs.Prelude.{◌≡◌, IfOk};
ghost use Rattle.gx_parse.specs.Queries as queries;

use crate::lists::{Names, with};
use crate::words::{is_comma, is_word, name};
use gx_bytes::{Bytes, NoMemory};
use gx_lexer::Token;
use std::alloc::Global;

/// What is done with the rows; None of the columns is `*`.
#[derive(Debug, Drop)]
pub enum Task {
    Delete,
    Select(Option<Names>),
    Explain(Option<Names>),
}

/// A statement with a condition, read as far as this.
#[derive(Debug, Drop)]
pub enum QueryReader {
    /// EXPLAIN.
    Explain,
    /// ANALYZE.
    Analyze,
    /// SELECT, which is explained or not.
    Select(bool),
    /// A comma of the select list.
    Next(bool, Names),
    /// A column's name.
    Listed(bool, Names),
    /// The select list, or DELETE.
    Task(Task),
    /// FROM.
    From(Task),
    /// The table's name.
    Named(Task, Bytes),
}

impl QueryReader {
    /// One more token, if the statement goes on with it before its condition.
    pub fn take(self, alloc: Global, token: Token) -> Result<Option<QueryReader>, NoMemory>
        ensures { IfOk result (λ next. next ≡ queries.query_after self token) }
    {
        match self {
            QueryReader::Explain => Ok(analyze(&token)),
            QueryReader::Analyze => Ok(select(&token)),
            QueryReader::Select(explained) => list(alloc, explained, token),
            QueryReader::Next(explained, columns) => column(explained, columns, token),
            QueryReader::Listed(explained, columns) => {
                Ok(behind_column(explained, columns, &token))
            }
            QueryReader::Task(task) => Ok(from(task, &token)),
            QueryReader::From(task) => Ok(table(task, token)),
            QueryReader::Named(..) => Ok(None),
        }
    }
}

fn analyze(token: &Token) -> Option<QueryReader>
    ensures { result ≡ queries.analyze token.now }
{
    if is_word(token, b"analyze") {
        Some(QueryReader::Analyze)
    } else {
        None
    }
}

fn select(token: &Token) -> Option<QueryReader>
    ensures { result ≡ queries.select token.now }
{
    if is_word(token, b"select") {
        Some(QueryReader::Select(true))
    } else {
        None
    }
}

fn listing(explained: bool, columns: Option<Names>) -> Task
    ensures { result ≡ queries.task explained columns }
{
    if explained {
        Task::Explain(columns)
    } else {
        Task::Select(columns)
    }
}

fn list(alloc: Global, explained: bool, token: Token) -> Result<Option<QueryReader>, NoMemory>
    ensures { IfOk result (λ next. next ≡ queries.list explained token) }
{
    match token {
        Token::Star => Ok(Some(QueryReader::Task(listing(explained, None)))),
        token => column(explained, Names::new(alloc), token),
    }
}

fn column(explained: bool, columns: Names, token: Token) -> Result<Option<QueryReader>, NoMemory>
    ensures { IfOk result (λ next. next ≡ queries.column explained columns token) }
{
    match name(token) {
        Some(column) => Ok(Some(QueryReader::Listed(explained, with(columns, column)?))),
        None => Ok(None),
    }
}

fn behind_column(explained: bool, columns: Names, token: &Token) -> Option<QueryReader>
    ensures { result ≡ queries.behind_column explained columns token.now }
{
    if is_comma(token) {
        Some(QueryReader::Next(explained, columns))
    } else {
        from(listing(explained, Some(columns)), token)
    }
}

fn from(task: Task, token: &Token) -> Option<QueryReader>
    ensures { result ≡ queries.from task token.now }
{
    if is_word(token, b"from") {
        Some(QueryReader::From(task))
    } else {
        None
    }
}

fn table(task: Task, token: Token) -> Option<QueryReader>
    ensures { result ≡ queries.table task token }
{
    let table = name(token)?;
    Some(QueryReader::Named(task, table))
}
