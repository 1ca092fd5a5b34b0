//! The statements.

use crate::lists::{Items, Names};
use gx_bytes::Bytes;
use gx_value::{Literal, Operator};

/// A type as it is written: a word, with `[]` behind it or not.
#[derive(Debug, Drop)]
pub struct TypeWord {
    pub word: Bytes,
    pub list: bool,
}

/// A literal, and the type that it is cast to.
#[derive(Debug, Drop)]
pub struct Given {
    pub literal: Literal,
    pub cast: Option<TypeWord>,
}

/// A parameter of an operator class; its number is kept as its text.
#[derive(Debug, Drop)]
pub struct Parameter {
    pub word: Bytes,
    pub number: Bytes,
}

/// A column of CREATE TABLE.
#[derive(Debug, Drop)]
pub struct ColumnWord {
    pub name: Bytes,
    pub kind: TypeWord,
}

/// The columns of CREATE TABLE in order.
pub type ColumnWords = Items<ColumnWord>;

/// The values of a row of INSERT.
pub type GivenRow = Items<Given>;

/// The rows of INSERT.
pub type GivenRows = Items<GivenRow>;

/// A condition. Several ANDs, or several ORs, that follow one another are grouped from the left.
#[derive(Debug, Drop)]
pub enum Condition {
    And(Box<Condition>, Box<Condition>),
    Or(Box<Condition>, Box<Condition>),
    Not(Box<Condition>),
    Atom {
        column: Bytes,
        op: Operator,
        given: Given,
    },
    IsNull {
        column: Bytes,
        negated: bool,
    },
}

/// A SELECT; None of the columns is `*`.
#[derive(Debug, Drop)]
pub struct Select {
    pub columns: Option<Names>,
    pub table: Bytes,
    pub condition: Option<Condition>,
}

/// A statement. Words are in lower case.
#[derive(Debug, Drop)]
pub enum Statement {
    /// White space and comments alone.
    Nothing,
    CreateTable {
        name: Bytes,
        columns: ColumnWords,
    },
    DropTable {
        name: Bytes,
    },
    CreateIndex {
        name: Bytes,
        table: Bytes,
        method: Bytes,
        column: Bytes,
        class: Option<Bytes>,
        parameter: Option<Parameter>,
    },
    DropIndex {
        name: Bytes,
    },
    Insert {
        table: Bytes,
        columns: Option<Names>,
        rows: GivenRows,
    },
    Delete {
        table: Bytes,
        condition: Option<Condition>,
    },
    Select(Select),
    Explain(Select),
    Vacuum {
        table: Bytes,
    },
    Checkpoint,
    Begin,
    Commit,
    Rollback,
}
