//! CREATE INDEX, token by token.

ghost use Rattle.std.specs.Prelude.{◌≡◌, IfOk};
ghost use Rattle.gx_parse.specs.Indexes as indexes;

use crate::held::Held;
use crate::statement::Parameter;
use crate::words::{is_close, is_equal, is_open, is_word, name, number, word};
use gx_bytes::{Bytes, NoMemory};
use gx_lexer::Token;
use std::alloc::Global;

/// CREATE INDEX up to its parenthesis, read as far as this.
#[derive(Debug, Drop)]
pub enum IndexHead {
    /// The words.
    Begun,
    /// The index's name.
    Named(Bytes),
    /// ON.
    On(Bytes),
    /// The table's name.
    Table(Bytes, Bytes),
    /// USING.
    Using(Bytes, Bytes),
    /// The method.
    Method(Bytes, Bytes, Bytes),
    /// `(`.
    Open(Bytes, Bytes, Bytes),
}

/// The names in CREATE INDEX.
#[derive(Debug, Drop)]
pub struct IndexNames {
    pub name: Bytes,
    pub table: Bytes,
    pub method: Bytes,
    pub column: Bytes,
}

/// CREATE INDEX behind its column, read as far as this.
#[derive(Debug, Drop)]
pub enum IndexTail {
    /// The column's name.
    Column,
    /// The class.
    Class(Bytes),
    /// `(`.
    Open(Bytes),
    /// The parameter's word.
    Word(Bytes, Bytes),
    /// `=`.
    Equal(Bytes, Bytes),
    /// The number.
    Number(Bytes, Parameter),
    /// The inner `)`.
    Given(Bytes, Parameter),
    /// The last `)`.
    Closed(Option<Bytes>, Option<Parameter>),
}

/// CREATE INDEX, read as far as this.
#[derive(Debug, Drop)]
pub enum IndexReader {
    Head(IndexHead),
    Tail(Held<IndexNames>, IndexTail),
}

impl IndexReader {
    /// One more token, if the statement goes on with it.
    pub fn take(self, alloc: Global, token: Token) -> Result<Option<IndexReader>, NoMemory>
        ensures { IfOk result (λ next. next ≡ indexes.index_after self token) }
    {
        match self {
            IndexReader::Head(IndexHead::Open(name, table, method)) => {
                column(alloc, name, table, method, token)
            }
            IndexReader::Head(head) => Ok(head.take(token).map(IndexReader::Head)),
            IndexReader::Tail(names, tail) => match tail.take(token) {
                Some(tail) => Ok(Some(IndexReader::Tail(names, tail))),
                None => Ok(None),
            },
        }
    }
}

fn column(
    alloc: Global,
    index: Bytes,
    table: Bytes,
    method: Bytes,
    token: Token,
) -> Result<Option<IndexReader>, NoMemory>
    ensures { IfOk result (λ next. next ≡ indexes.column index table method token) }
{
    let Some(column) = name(token) else {
        return Ok(None);
    };
    let names = IndexNames {
        name: index,
        table,
        method,
        column,
    };
    Ok(Some(IndexReader::Tail(Held::new(alloc, names)?, IndexTail::Column)))
}

impl IndexHead {
    fn take(self, token: Token) -> Option<IndexHead>
        ensures { result ≡ indexes.head_after self token }
    {
        match self {
            IndexHead::Begun => {
                let index = name(token)?;
                Some(IndexHead::Named(index))
            }
            IndexHead::Named(index) => on(index, &token),
            IndexHead::On(index) => {
                let table = name(token)?;
                Some(IndexHead::Table(index, table))
            }
            IndexHead::Table(index, table) => using(index, table, &token),
            IndexHead::Using(index, table) => {
                let method = word(token)?;
                Some(IndexHead::Method(index, table, method))
            }
            IndexHead::Method(index, table, method) => opened(index, table, method, &token),
            IndexHead::Open(..) => None,
        }
    }
}

fn on(index: Bytes, token: &Token) -> Option<IndexHead>
    ensures { result ≡ indexes.on index token.now }
{
    if is_word(token, b"on") {
        Some(IndexHead::On(index))
    } else {
        None
    }
}

fn using(index: Bytes, table: Bytes, token: &Token) -> Option<IndexHead>
    ensures { result ≡ indexes.using index table token.now }
{
    if is_word(token, b"using") {
        Some(IndexHead::Using(index, table))
    } else {
        None
    }
}

fn opened(index: Bytes, table: Bytes, method: Bytes, token: &Token) -> Option<IndexHead>
    ensures { result ≡ indexes.opened index table method token.now }
{
    if is_open(token) {
        Some(IndexHead::Open(index, table, method))
    } else {
        None
    }
}

impl IndexTail {
    fn take(self, token: Token) -> Option<IndexTail>
        ensures { result ≡ indexes.tail_after self token }
    {
        match self {
            IndexTail::Column => behind_column(token),
            IndexTail::Class(class) => behind_class(class, &token),
            IndexTail::Open(class) => {
                let word = word(token)?;
                Some(IndexTail::Word(class, word))
            }
            IndexTail::Word(class, word) => equal(class, word, &token),
            IndexTail::Equal(class, word) => {
                let number = number(token)?;
                Some(IndexTail::Number(class, Parameter { word, number }))
            }
            IndexTail::Number(class, parameter) => given(class, parameter, &token),
            IndexTail::Given(class, parameter) => closed(Some(class), Some(parameter), &token),
            IndexTail::Closed(..) => None,
        }
    }
}

fn behind_column(token: Token) -> Option<IndexTail>
    ensures { result ≡ indexes.behind_column token }
{
    match token {
        Token::Word(class) => Some(IndexTail::Class(class)),
        Token::Close => Some(IndexTail::Closed(None, None)),
        _ => None,
    }
}

fn behind_class(class: Bytes, token: &Token) -> Option<IndexTail>
    ensures { result ≡ indexes.behind_class class token.now }
{
    if is_open(token) {
        Some(IndexTail::Open(class))
    } else {
        closed(Some(class), None, token)
    }
}

fn equal(class: Bytes, word: Bytes, token: &Token) -> Option<IndexTail>
    ensures { result ≡ indexes.equal class word token.now }
{
    if is_equal(token) {
        Some(IndexTail::Equal(class, word))
    } else {
        None
    }
}

fn given(class: Bytes, parameter: Parameter, token: &Token) -> Option<IndexTail>
    ensures { result ≡ indexes.given class parameter token.now }
{
    if is_close(token) {
        Some(IndexTail::Given(class, parameter))
    } else {
        None
    }
}

fn closed(class: Option<Bytes>, parameter: Option<Parameter>, token: &Token) -> Option<IndexTail>
    ensures { result ≡ indexes.closed class parameter token.now }
{
    if is_close(token) {
        Some(IndexTail::Closed(class, parameter))
    } else {
        None
    }
}
