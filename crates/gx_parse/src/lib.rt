//! The statements of a script: from a piece to the statement that it says.
#![tactic(auto)]

mod condition;
mod error;
mod given;
mod held;
mod index;
mod insert;
mod law;
mod lists;
mod nest;
mod outcome;
mod parsing;
mod query;
mod reader;
mod statement;
mod table;
mod words;

pub use error::ParseError;
pub use gx_lexer::{Cutter, Piece, Pieces};
pub use law::{one_answer, one_meaning, one_statement, sound_statements};
pub use lists::{Items, Names};
pub use parsing::parse;
pub use statement::{
    ColumnWord, ColumnWords, Condition, Given, GivenRow, GivenRows, Parameter, Select, Statement,
    TypeWord,
};
