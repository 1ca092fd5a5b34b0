//! Statements, token by token.

ghost use Rattle.std.specs.Prelude.{◌≡◌, IfOk, option_map};
ghost use Rattle.gx_parse.specs.Conditions as conditions;
ghost use Rattle.gx_parse.specs.Outcomes.{limits, outcome_map};
ghost use Rattle.gx_parse.specs.Said.{said_of};
ghost use Rattle.gx_parse.specs.States as states;
ghost use Rattle.gx_parse.specs.Trees.{tree_of};

use crate::condition::ConditionReader;
use crate::held::Held;
use crate::index::{IndexHead, IndexNames, IndexReader, IndexTail};
use crate::insert::{InsertParts, InsertReader};
use crate::outcome::Outcome;
use crate::query::{QueryReader, Task};
use crate::statement::{Condition, Parameter, Select, Statement};
use crate::table::TableReader;
use crate::words::{is, is_word, name};
use gx_bytes::{Bytes, NoMemory};
use gx_lexer::Token;
use std::alloc::Global;

/// The statements of one word.
#[derive(Clone, Copy, Debug, Drop)]
pub enum Word {
    Checkpoint,
    Begin,
    Commit,
    Rollback,
}

/// The statements of some words and a name.
#[derive(Clone, Copy, Debug, Drop)]
pub enum Verb {
    DropTable,
    DropIndex,
    Vacuum,
}

/// A statement up to its condition, read as far as this.
#[derive(Debug, Drop)]
pub enum Head {
    /// Nothing yet.
    Start,
    /// CREATE.
    Create,
    /// DROP.
    Drop,
    /// A statement of one word.
    Word(Word),
    /// The words.
    Verb(Verb),
    /// And the name.
    Named(Verb, Bytes),
    Table(TableReader),
    Index(IndexReader),
    Insert(InsertReader),
    Query(QueryReader),
}

/// A statement that is read as far as this.
#[derive(Debug, Drop)]
pub enum Reader {
    Head(Head),
    /// WHERE, and what follows it.
    Where(Task, Bytes, Held<ConditionReader>),
}

impl Reader {
    /// One more token.
    pub fn take(self, alloc: Global, token: Token) -> Result<Outcome<Reader>, NoMemory>
        ensures { IfOk result (λ next. outcome_map states.state_of next ≡ states.state_after limits (states.state_of self) token) }
    {
        match self {
            Reader::Head(Head::Query(QueryReader::Named(task, table))) => {
                where_taken(alloc, task, table, &token)
            }
            Reader::Head(head) => head_taken(alloc, head, token),
            Reader::Where(task, table, condition) => {
                condition_taken(alloc, task, table, condition, token)
            }
        }
    }

    /// The statement, if it may end here.
    pub fn finish(self, alloc: Global) -> Result<Option<Statement>, NoMemory>
        ensures { IfOk result (λ whole. option_map said_of whole ≡ states.said_at (states.state_of self)) }
    {
        match self {
            Reader::Head(head) => Ok(head.finish()),
            Reader::Where(task, table, condition) => match condition.into_inner().finish(alloc)? {
                Some(condition) => Ok(Some(queried(task, table, Some(condition)))),
                None => Ok(None),
            },
        }
    }
}

fn where_taken(
    alloc: Global,
    task: Task,
    table: Bytes,
    token: &Token,
) -> Result<Outcome<Reader>, NoMemory>
    ensures { IfOk result (λ next. outcome_map states.state_of next ≡ states.where_after task table token.now) }
{
    if is_word(token, b"where") {
        let condition = Held::new(alloc, ConditionReader::new(alloc))?;
        Ok(Outcome::Goes(Reader::Where(task, table, condition)))
    } else {
        Ok(Outcome::Wrong)
    }
}

fn head_taken(alloc: Global, head: Head, token: Token) -> Result<Outcome<Reader>, NoMemory>
    ensures { IfOk result (λ next. outcome_map states.state_of next ≡ states.in_head head token) }
{
    match head.take(alloc, token)? {
        Some(head) => Ok(Outcome::Goes(Reader::Head(head))),
        None => Ok(Outcome::Wrong),
    }
}

fn condition_taken(
    alloc: Global,
    task: Task,
    table: Bytes,
    condition: Held<ConditionReader>,
    token: Token,
) -> Result<Outcome<Reader>, NoMemory>
    ensures { IfOk result (λ next. outcome_map states.state_of next ≡ states.in_condition limits task table (conditions.standing_of condition) token) }
{
    let mut condition = condition;
    match condition
        .replace(ConditionReader::new(alloc))
        .take(alloc, token)?
    {
        Outcome::Goes(next) => {
            condition.replace(next);
            Ok(Outcome::Goes(Reader::Where(task, table, condition)))
        }
        Outcome::Wrong => Ok(Outcome::Wrong),
        Outcome::Deep => Ok(Outcome::Deep),
    }
}

impl Head {
    fn take(self, alloc: Global, token: Token) -> Result<Option<Head>, NoMemory>
        ensures { IfOk result (λ next. next ≡ states.head_after self token) }
    {
        match self {
            Head::Start => Ok(start(&token)),
            Head::Create => Ok(created(&token)),
            Head::Drop => Ok(dropped(&token)),
            Head::Word(_) => Ok(None),
            Head::Verb(verb) => Ok(named(verb, token)),
            Head::Named(..) => Ok(None),
            Head::Table(table) => Ok(table.take(alloc, token)?.map(Head::Table)),
            Head::Index(index) => Ok(index.take(alloc, token)?.map(Head::Index)),
            Head::Insert(insert) => Ok(insert.take(alloc, token)?.map(Head::Insert)),
            Head::Query(query) => Ok(query.take(alloc, token)?.map(Head::Query)),
        }
    }

    fn finish(self) -> Option<Statement>
        ensures { option_map said_of result ≡ states.said_by self }
    {
        match self {
            Head::Start => Some(Statement::Nothing),
            Head::Word(word) => Some(alone(word)),
            Head::Named(verb, name) => Some(about(verb, name)),
            Head::Table(table) => table_finished(table),
            Head::Index(index) => index_finished(index),
            Head::Insert(insert) => insert_finished(insert),
            Head::Query(query) => query_finished(query),
            Head::Create => None,
            Head::Drop => None,
            Head::Verb(_) => None,
        }
    }
}

fn start(token: &Token) -> Option<Head>
    ensures { result ≡ states.started token.now }
{
    match token {
        Token::Word(word) => started(word),
        _ => None,
    }
}

fn started(word: &Bytes) -> Option<Head>
    ensures { result ≡ states.started_by word.now }
{
    if is(word, b"create") {
        Some(Head::Create)
    } else if is(word, b"drop") {
        Some(Head::Drop)
    } else if is(word, b"insert") {
        Some(Head::Insert(InsertReader::Begun))
    } else if is(word, b"delete") {
        Some(Head::Query(QueryReader::Task(Task::Delete)))
    } else if is(word, b"select") {
        Some(Head::Query(QueryReader::Select(false)))
    } else if is(word, b"explain") {
        Some(Head::Query(QueryReader::Explain))
    } else {
        started_alone(word)
    }
}

fn started_alone(word: &Bytes) -> Option<Head>
    ensures { result ≡ states.started_alone word.now }
{
    if is(word, b"vacuum") {
        Some(Head::Verb(Verb::Vacuum))
    } else if is(word, b"checkpoint") {
        Some(Head::Word(Word::Checkpoint))
    } else if is(word, b"begin") {
        Some(Head::Word(Word::Begin))
    } else if is(word, b"commit") {
        Some(Head::Word(Word::Commit))
    } else if is(word, b"rollback") {
        Some(Head::Word(Word::Rollback))
    } else {
        None
    }
}

fn created(token: &Token) -> Option<Head>
    ensures { result ≡ states.created token.now }
{
    if is_word(token, b"table") {
        Some(Head::Table(TableReader::Begun))
    } else if is_word(token, b"index") {
        Some(Head::Index(IndexReader::Head(IndexHead::Begun)))
    } else {
        None
    }
}

fn dropped(token: &Token) -> Option<Head>
    ensures { result ≡ states.dropped token.now }
{
    if is_word(token, b"table") {
        Some(Head::Verb(Verb::DropTable))
    } else if is_word(token, b"index") {
        Some(Head::Verb(Verb::DropIndex))
    } else {
        None
    }
}

fn named(verb: Verb, token: Token) -> Option<Head>
    ensures { result ≡ states.named verb token }
{
    let name = name(token)?;
    Some(Head::Named(verb, name))
}

fn alone(word: Word) -> Statement
    ensures { said_of result ≡ states.alone word }
{
    match word {
        Word::Checkpoint => Statement::Checkpoint,
        Word::Begin => Statement::Begin,
        Word::Commit => Statement::Commit,
        Word::Rollback => Statement::Rollback,
    }
}

fn about(verb: Verb, name: Bytes) -> Statement
    ensures { said_of result ≡ states.about verb name }
{
    match verb {
        Verb::DropTable => Statement::DropTable { name },
        Verb::DropIndex => Statement::DropIndex { name },
        Verb::Vacuum => Statement::Vacuum { table: name },
    }
}

fn table_finished(table: TableReader) -> Option<Statement>
    ensures { option_map said_of result ≡ states.table_said table }
{
    match table {
        TableReader::Closed(name, columns) => Some(Statement::CreateTable { name, columns }),
        _ => None,
    }
}

fn index_finished(index: IndexReader) -> Option<Statement>
    ensures { option_map said_of result ≡ states.index_said index }
{
    match index {
        IndexReader::Tail(names, tail) => tail_finished(names.into_inner(), tail),
        IndexReader::Head(_) => None,
    }
}

fn insert_finished(insert: InsertReader) -> Option<Statement>
    ensures { option_map said_of result ≡ states.insert_said insert }
{
    match insert {
        InsertReader::Closed(parts) => Some(inserted(parts.into_inner())),
        _ => None,
    }
}

fn query_finished(query: QueryReader) -> Option<Statement>
    ensures { option_map said_of result ≡ states.query_said query }
{
    match query {
        QueryReader::Named(task, table) => Some(queried(task, table, None)),
        _ => None,
    }
}

fn tail_finished(names: IndexNames, tail: IndexTail) -> Option<Statement>
    ensures { option_map said_of result ≡ states.tail_said names tail }
{
    match tail {
        IndexTail::Closed(class, parameter) => Some(indexed(names, class, parameter)),
        _ => None,
    }
}

fn indexed(names: IndexNames, class: Option<Bytes>, parameter: Option<Parameter>) -> Statement
    ensures { said_of result ≡ states.indexed names class parameter }
{
    let IndexNames {
        name,
        table,
        method,
        column,
    } = names;
    Statement::CreateIndex {
        name,
        table,
        method,
        column,
        class,
        parameter,
    }
}

fn inserted(parts: InsertParts) -> Statement
    ensures { said_of result ≡ states.inserted parts }
{
    let InsertParts {
        table,
        columns,
        rows,
    } = parts;
    Statement::Insert {
        table,
        columns,
        rows,
    }
}

fn queried(task: Task, table: Bytes, condition: Option<Condition>) -> Statement
    ensures { said_of result ≡ states.queried task table (option_map tree_of condition) }
{
    match task {
        Task::Delete => Statement::Delete { table, condition },
        Task::Select(columns) => Statement::Select(Select {
            columns,
            table,
            condition,
        }),
        Task::Explain(columns) => Statement::Explain(Select {
            columns,
            table,
            condition,
        }),
    }
}
