//! Conditions, token by token.

ghost use Rattle.std.specs.Prelude.{◌≡◌, IfOk, option_map};
ghost use Rattle.gx_parse.specs.Conditions as conditions;
ghost use Rattle.gx_parse.specs.Literals as literals;
ghost use Rattle.gx_parse.specs.Nests.{nest_of};
ghost use Rattle.gx_parse.specs.Outcomes.{limits, outcome_map};
ghost use Rattle.gx_parse.specs.Trees.{tree_of};

use crate::given::GivenReader;
use crate::nest::Nest;
use crate::outcome::Outcome;
use crate::statement::Condition;
use crate::words::{is_close, is_open, is_word, name, operator};
use gx_bytes::{Bytes, NoMemory};
use gx_lexer::Token;
use gx_value::Operator;
use std::alloc::Global;

/// How many parentheses and NOTs may be open.
pub const MOST_OPEN: usize = 64;

/// How many ANDs and ORs a condition may have.
pub const MOST_JOINS: usize = 1_024;

/// What the last token of a condition left to come.
#[derive(Debug, Drop)]
pub enum Part {
    /// An operand.
    Operand,
    /// An operator, or IS, behind the column.
    Column(Bytes),
    /// A literal.
    Sign {
        column: Bytes,
        op: Operator,
    },
    /// The rest of a literal, or what follows it.
    Literal {
        column: Bytes,
        op: Operator,
        given: GivenReader,
    },
    /// NOT or NULL.
    Is(Bytes),
    /// NULL.
    IsNot(Bytes),
    /// AND, OR, a closing parenthesis or the end.
    Joint,
}

/// A condition that is read as far as this.
#[derive(Debug, Drop)]
pub struct ConditionReader {
    pub nest: Nest,
    pub part: Part,
}

impl ConditionReader {
    pub fn new(alloc: Global) -> ConditionReader
        ensures { conditions.standing_of result ≡ conditions.begun }
    {
        ConditionReader {
            nest: Nest::new(alloc),
            part: Part::Operand,
        }
    }

    /// One more token.
    pub fn take(self, alloc: Global, token: Token) -> Result<Outcome<ConditionReader>, NoMemory>
        ensures { IfOk result (λ next. outcome_map conditions.standing_of next ≡ conditions.condition_after limits (conditions.standing_of self) token) }
    {
        let ConditionReader { nest, part } = self;
        match part {
            Part::Operand => operand(nest, token),
            Part::Column(column) => Ok(behind_column(nest, column, &token)),
            Part::Sign { column, op } => sign(alloc, nest, column, op, token),
            Part::Literal { column, op, given } => literal(alloc, nest, column, op, given, token),
            Part::Is(column) => is(alloc, nest, column, &token),
            Part::IsNot(column) => null(alloc, nest, column, true, &token),
            Part::Joint => joint(alloc, nest, &token),
        }
    }

    /// The whole condition, if it may end here.
    pub fn finish(self, alloc: Global) -> Result<Option<Condition>, NoMemory>
        ensures { IfOk result (λ whole. option_map tree_of whole ≡ conditions.condition_of (conditions.standing_of self)) }
    {
        let ConditionReader { nest, part } = self;
        match part {
            Part::Joint => nest.finish(alloc),
            Part::Literal { column, op, given } => match given.finish() {
                Some(given) => {
                    let nest = nest.with_operand(alloc, Condition::Atom { column, op, given })?;
                    nest.finish(alloc)
                }
                None => Ok(None),
            },
            _ => Ok(None),
        }
    }
}

fn operand(nest: Nest, token: Token) -> Result<Outcome<ConditionReader>, NoMemory>
    ensures { IfOk result (λ next. outcome_map conditions.standing_of next ≡ conditions.operand_after limits (nest_of nest) token) }
{
    if is_word(&token, b"not") {
        opened(nest, true)
    } else if is_open(&token) {
        opened(nest, false)
    } else {
        Ok(column(nest, token))
    }
}

fn opened(nest: Nest, negated: bool) -> Result<Outcome<ConditionReader>, NoMemory>
    ensures { IfOk result (λ next. outcome_map conditions.standing_of next ≡ conditions.open_after limits (nest_of nest) negated) }
{
    if nest.frames.len() < MOST_OPEN {
        Ok(Outcome::Goes(ConditionReader {
            nest: nest.opened(negated)?,
            part: Part::Operand,
        }))
    } else {
        Ok(Outcome::Deep)
    }
}

fn column(nest: Nest, token: Token) -> Outcome<ConditionReader>
    ensures { outcome_map conditions.standing_of result ≡ conditions.column_after (nest_of nest) token }
{
    match name(token) {
        Some(column) => Outcome::Goes(ConditionReader {
            nest,
            part: Part::Column(column),
        }),
        None => Outcome::Wrong,
    }
}

fn behind_column(nest: Nest, column: Bytes, token: &Token) -> Outcome<ConditionReader>
    ensures { outcome_map conditions.standing_of result ≡ conditions.behind_column (nest_of nest) column token.now }
{
    if is_word(token, b"is") {
        return Outcome::Goes(ConditionReader {
            nest,
            part: Part::Is(column),
        });
    }
    match operator(token) {
        Some(op) => Outcome::Goes(ConditionReader {
            nest,
            part: Part::Sign { column, op },
        }),
        None => Outcome::Wrong,
    }
}

fn sign(
    alloc: Global,
    nest: Nest,
    column: Bytes,
    op: Operator,
    token: Token,
) -> Result<Outcome<ConditionReader>, NoMemory>
    ensures { IfOk result (λ next. outcome_map conditions.standing_of next ≡ conditions.behind_operator (nest_of nest) column op token) }
{
    match GivenReader::begin(alloc, token)? {
        Some(given) => Ok(Outcome::Goes(ConditionReader {
            nest,
            part: Part::Literal { column, op, given },
        })),
        None => Ok(Outcome::Wrong),
    }
}

fn literal(
    alloc: Global,
    nest: Nest,
    column: Bytes,
    op: Operator,
    given: GivenReader,
    token: Token,
) -> Result<Outcome<ConditionReader>, NoMemory>
    ensures { IfOk result (λ next. outcome_map conditions.standing_of next ≡ conditions.literal_after limits (nest_of nest) column op given token) }
{
    if given.takes(&token) {
        match given.take(alloc, token)? {
            Some(given) => Ok(Outcome::Goes(ConditionReader {
                nest,
                part: Part::Literal { column, op, given },
            })),
            None => Ok(Outcome::Wrong),
        }
    } else {
        behind_literal(alloc, nest, column, op, given, &token)
    }
}

fn behind_literal(
    alloc: Global,
    nest: Nest,
    column: Bytes,
    op: Operator,
    given: GivenReader,
    token: &Token,
) -> Result<Outcome<ConditionReader>, NoMemory>
    ensures { IfOk result (λ next. outcome_map conditions.standing_of next ≡ conditions.behind_literal limits (nest_of nest) column op token.now (literals.given_of given)) }
{
    match given.finish() {
        Some(given) => {
            let nest = nest.with_operand(alloc, Condition::Atom { column, op, given })?;
            joint(alloc, nest, token)
        }
        None => Ok(Outcome::Wrong),
    }
}

fn is(
    alloc: Global,
    nest: Nest,
    column: Bytes,
    token: &Token,
) -> Result<Outcome<ConditionReader>, NoMemory>
    ensures { IfOk result (λ next. outcome_map conditions.standing_of next ≡ conditions.behind_is (nest_of nest) column token.now) }
{
    if is_word(token, b"not") {
        Ok(Outcome::Goes(ConditionReader {
            nest,
            part: Part::IsNot(column),
        }))
    } else {
        null(alloc, nest, column, false, token)
    }
}

fn null(
    alloc: Global,
    nest: Nest,
    column: Bytes,
    negated: bool,
    token: &Token,
) -> Result<Outcome<ConditionReader>, NoMemory>
    ensures { IfOk result (λ next. outcome_map conditions.standing_of next ≡ conditions.null_after (nest_of nest) column negated token.now) }
{
    if is_word(token, b"null") {
        let nest = nest.with_operand(alloc, Condition::IsNull { column, negated })?;
        Ok(Outcome::Goes(ConditionReader {
            nest,
            part: Part::Joint,
        }))
    } else {
        Ok(Outcome::Wrong)
    }
}

fn joint(alloc: Global, nest: Nest, token: &Token) -> Result<Outcome<ConditionReader>, NoMemory>
    ensures { IfOk result (λ next. outcome_map conditions.standing_of next ≡ conditions.joint_after limits (nest_of nest) token.now) }
{
    if is_word(token, b"and") {
        Ok(and(nest))
    } else if is_word(token, b"or") {
        or(alloc, nest)
    } else if is_close(token) {
        close(alloc, nest)
    } else {
        Ok(Outcome::Wrong)
    }
}

fn and(nest: Nest) -> Outcome<ConditionReader>
    ensures { outcome_map conditions.standing_of result ≡ conditions.and_after limits (nest_of nest) }
{
    if nest.joins < MOST_JOINS {
        Outcome::Goes(ConditionReader {
            nest: nest.and(),
            part: Part::Operand,
        })
    } else {
        Outcome::Deep
    }
}

fn or(alloc: Global, nest: Nest) -> Result<Outcome<ConditionReader>, NoMemory>
    ensures { IfOk result (λ next. outcome_map conditions.standing_of next ≡ conditions.or_after limits (nest_of nest)) }
{
    if nest.joins < MOST_JOINS {
        Ok(Outcome::Goes(ConditionReader {
            nest: nest.or(alloc)?,
            part: Part::Operand,
        }))
    } else {
        Ok(Outcome::Deep)
    }
}

fn close(alloc: Global, nest: Nest) -> Result<Outcome<ConditionReader>, NoMemory>
    ensures { IfOk result (λ next. outcome_map conditions.standing_of next ≡ conditions.close_after (nest_of nest)) }
{
    match nest.closed(alloc)? {
        Some(nest) => Ok(Outcome::Goes(ConditionReader {
            nest,
            part: Part::Joint,
        })),
        None => Ok(Outcome::Wrong),
    }
}
