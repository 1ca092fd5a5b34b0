//! What a piece is read as.

ghost use Rattle.std.specs.Prelude.{◌≡◌, ℕ, List, Option, Some, IfOk, IfErr};
ghost use Rattle.gx_lexer.specs.Feeding.{piece_of};
ghost use Rattle.gx_model.specs.Replies.{refusal};
ghost use Rattle.gx_model.specs.Turns.{reading_of};
ghost use Rattle.gx_parse.specs.Answers.{Answer, answer_of, wrong_at as wrong_place};
ghost use Rattle.gx_session.specs.Readings.{IsReading, IsSoundReading, fault_of};

use gx_engine::Reply;
use gx_lexer::Piece;
use gx_pages::PageError;
use gx_parse::{ParseError, Statement, one_answer, parse};
use gx_step::{refused, wrong_at};
use std::alloc::Global;

/// What a piece is read as.
#[derive(Debug, Drop)]
pub enum Reading {
    Says(Statement),
    /// It says no statement, and is answered so.
    Refused(Reply),
}

/// What a piece says. The error is Memory.
pub fn read(alloc: Global, piece: &Piece) -> Result<Reading, PageError>
    ensures read { IfOk result (λ reading. (text : List ℕ) → piece_of text ≡ piece.now → IsReading (reading_of text) reading) }
    ensures sound { IfOk result IsSoundReading }
    ensures err { IfErr result (λ e. e ≡ PageError.Memory) }
{
    match piece {
        Piece::TooLong => refuse(alloc, 17),
        Piece::Text(bytes) => read_text(alloc, bytes.as_slice()),
    }
}

fn read_text(alloc: Global, text: &[u8]) -> Result<Reading, PageError>
    ensures read { IfOk result (IsReading (Some (answer_of text.now))) }
    ensures sound { IfOk result IsSoundReading }
    ensures err { IfErr result (λ e. e ≡ PageError.Memory) }
{
    one_answer();
    match parse(alloc, text) {
        Ok(statement) => Ok(Reading::Says(statement)),
        Err(ParseError::Syntax { at }) => refuse_at(alloc, at),
        Err(ParseError::TooDeep) => refuse(alloc, 18),
        Err(ParseError::Memory) => Err(PageError::Memory),
    }
}

fn refuse(alloc: Global, number: u8) -> Result<Reading, PageError>
    ensures read { IfOk result (λ reading. (answer : Option Answer) → fault_of answer ≡ Some (refusal number) → IsReading answer reading) }
    ensures sound { IfOk result IsSoundReading }
    ensures err { IfErr result (λ e. e ≡ PageError.Memory) }
{
    let reply = refused(alloc, number)?;
    Ok(Reading::Refused(reply))
}

fn refuse_at(alloc: Global, at: u64) -> Result<Reading, PageError>
    ensures read { IfOk result (IsReading (Some (wrong_place at))) }
    ensures sound { IfOk result IsSoundReading }
    ensures err { IfErr result (λ e. e ≡ PageError.Memory) }
{
    let reply = wrong_at(alloc, at)?;
    Ok(Reading::Refused(reply))
}
