//! From a piece to its statement.

ghost use Rattle.std.specs.Prelude.{◌≡◌, ◌≤◌, ◌==◌, not, length, Some, IfOk, MatchResult};
ghost use Rattle.std.specs.List.{prefix_len};
ghost use Rattle.std.specs.Str.Lossy.{utf8_valid_len};
ghost use Rattle.gx_lexer.specs.Tokens.{placed};
ghost use Rattle.gx_parse.specs.Answers as answers;
ghost use Rattle.gx_parse.specs.Faults.{IsSaid, IsFault};
ghost use Rattle.gx_parse.specs.Outcomes.{limits};
ghost use Rattle.gx_parse.specs.Said.{said_of};
ghost use Rattle.gx_parse.specs.Sound.{IsSound};
ghost use Rattle.gx_parse.specs.States.{said_at, state_of};

use crate::error::ParseError;
use crate::law::sound_statements;
use crate::outcome::Outcome;
use crate::reader::{Head, Reader};
use crate::statement::Statement;
use gx_lexer::{Token, first_at};
use std::alloc::Global;

/// The statement that a piece says, or its first fault: the first token with which no statement goes on, or
/// the one that opens or joins too much in a condition, whichever stands first.
pub fn parse(alloc: Global, piece: &[u8]) -> Result<Statement, ParseError>
    ensures answer { MatchResult result (λ s. IsSaid piece.now (said_of s)) (λ e. IsFault piece.now e) }
    ensures sound { IfOk result (λ s. IsSound (said_of s)) }
{
    sound_statements();
    read_piece(alloc, piece)
}

fn read_piece(alloc: Global, piece: &[u8]) -> Result<Statement, ParseError>
    ensures { MatchResult result (λ s. answers.answer_of piece.now ≡ answers.says (said_of s)) (λ e. answers.Tells (answers.answer_of piece.now) e) }
{
    let end = text_len(piece);
    if end < piece.len() {
        return Err(ParseError::Syntax { at: end as u64 });
    }
    let mut reader = Reader::Head(Head::Start);
    let mut rest = piece;
    'tokens: while let Some((first, after)) = rest.split_first() {
        let at = piece.len() - rest.len();
        let Ok((token, n)) = first_at(alloc, *first, after) else {
            return Err(ParseError::Memory);
        };
        rest = &after[n..];
        let Some(token) = token else {
            continue 'tokens;
        };
        reader = read(alloc, reader, token, at)?;
    }
    ended(alloc, reader, piece.len())
}

/// The length of the longest front that is UTF-8 without a byte 0.
fn text_len(piece: &[u8]) -> usize
    ensures len { result ≡ answers.text_len piece.now }
    ensures within { result ≤ length piece.now }
{
    front_len(piece).min(utf8_len(piece))
}

/// The number of bytes before the first byte 0.
fn front_len(piece: &[u8]) -> usize
    ensures len { result ≡ prefix_len (λ b. not (b == 0)) piece.now }
    ensures within { result ≤ length piece.now }
{
    piece.iter().take_while(|b| **b != 0).count()
}

/// The length of the longest front that is UTF-8.
fn utf8_len(piece: &[u8]) -> usize
    ensures { result ≡ utf8_valid_len piece.now }
{
    match str::from_utf8(piece) {
        Ok(_) => piece.len(),
        Err(error) => error.valid_up_to(),
    }
}

/// A token at a place.
fn read(alloc: Global, reader: Reader, token: Token, at: usize) -> Result<Reader, ParseError>
    ensures { MatchResult result (λ next. answers.ReadOn limits (state_of reader) (placed at (Some token)) (state_of next)) (λ e. answers.StopsAt limits (state_of reader) (placed at (Some token)) e) }
{
    match reader.take(alloc, token) {
        Ok(Outcome::Goes(next)) => Ok(next),
        Ok(Outcome::Wrong) => Err(ParseError::Syntax { at: at as u64 }),
        Ok(Outcome::Deep) => Err(ParseError::TooDeep),
        Err(_) => Err(ParseError::Memory),
    }
}

fn ended(alloc: Global, reader: Reader, end: usize) -> Result<Statement, ParseError>
    ensures { MatchResult result (λ s. answers.ended end (said_at (state_of reader)) ≡ answers.says (said_of s)) (λ e. answers.Tells (answers.ended end (said_at (state_of reader))) e) }
{
    match reader.finish(alloc) {
        Ok(Some(statement)) => Ok(statement),
        Ok(None) => Err(ParseError::Syntax { at: end as u64 }),
        Err(_) => Err(ParseError::Memory),
    }
}
