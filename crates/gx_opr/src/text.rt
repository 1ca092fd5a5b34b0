//! Literals as right sides of operators.

ghost use Rattle.std.specs.Prelude.{◌≡◌, true, None, IsUtf8, IfOk, IfErr, MatchOption, MatchResult, option_map};
ghost use Rattle.std.specs.List.{AllByRecursion};
ghost use Rattle.gx_lquery.specs.Query.{IsLquery};
ghost use Rattle.gx_value.specs.Types.{as_column};
ghost use Rattle.gx_value.specs.Literals.{IsLiteral, HasTexts};
ghost use Rattle.gx_value.specs.declared.types.OperandType.TheVariants as operand;
ghost use Rattle.gx_opr.specs.Operands.{lqueries, right_of, IsOperand, IsRight};
ghost use Rattle.gx_opr.specs.Resolving.{fits, is_array};
ghost use Rattle.gx_opr.specs.Literals.{ReadsOperand, RefusesOperand, ReadsTexts, RefusesTexts, SpellsRight, RefusesRight, RefusesText, SpellsList, RefusesList, AreQueries, RefusesQueries, SpellsElement, RefusesElement};

use crate::operand::{Operand, Part};
use gx_bytes::{Bytes, ValueError};
use gx_intarr::{QueryInt, Texts};
use gx_lquery::{Lqueries, Lquery};
use gx_ltxtquery::Ltxtquery;
use gx_value::{Form, Literal, OperandType, read_value};
use std::alloc::Global;
use std::str;

/// Reads a literal as an operand of the type; None is NULL. A number is read as its text. The errors are those of
/// the type's texts; of the elements of lquery[] the first that is none decides, and a text that isn't UTF-8 is no
/// value. A list fits arrays alone, as [`crate::resolve`] sees to.
pub fn read_operand(
    alloc: Global,
    kind: OperandType,
    literal: &Literal,
) -> Result<Option<Operand>, ValueError>
    requires literal { IsLiteral literal.now }
    requires fits { fits literal.now.form kind ≡ true }
    ensures valid { IfOk result (λ found. MatchOption found (Unit {0}) (λ o. (o.kind ≡ kind) × IsOperand o)) }
    ensures ok { IfOk result (λ found. ReadsOperand kind literal.now (option_map (λ o. right_of o.part) found)) }
    ensures err { IfErr result (λ e. RefusesOperand kind literal.now e) }
{
    match part_of(alloc, kind, literal)? {
        Some(part) => Ok(Some(Operand { kind, part })),
        None => Ok(None),
    }
}

fn part_of(alloc: Global, kind: OperandType, literal: &Literal) -> Result<Option<Part>, ValueError>
    requires literal { IsLiteral literal.now }
    requires fits { fits literal.now.form kind ≡ true }
    ensures valid { IfOk result (λ found. MatchOption found (Unit {0}) (λ p. IsRight kind (right_of p))) }
    ensures ok { IfOk result (λ found. ReadsOperand kind literal.now (option_map right_of found)) }
    ensures err { IfErr result (λ e. RefusesOperand kind literal.now e) }
{
    match kind.as_column() {
        Some(column) => match read_value(alloc, column, literal)? {
            Some(value) => Ok(Some(Part::Value(value))),
            None => Ok(None),
        },
        None => part_of_literal(alloc, kind, literal.form, &literal.texts),
    }
}

/// A literal of a type that no column has.
fn part_of_literal(
    alloc: Global,
    kind: OperandType,
    form: Form,
    texts: &Texts,
) -> Result<Option<Part>, ValueError>
    requires literal { HasTexts form texts.now }
    requires fits { fits form kind ≡ true }
    requires other { as_column kind ≡ None }
    ensures valid { IfOk result (λ found. MatchOption found (Unit {0}) (λ p. IsRight kind (right_of p))) }
    ensures ok { IfOk result (λ found. ReadsTexts kind form texts.now (option_map right_of found)) }
    ensures err { IfErr result (λ e. RefusesTexts kind form texts.now e) }
{
    match form {
        Form::Null => Ok(None),
        Form::List => Ok(Some(part_of_list(alloc, kind, texts)?)),
        Form::Text | Form::Number => match texts.text(0) {
            Some(text) => Ok(Some(part_of_bytes(alloc, kind, text)?)),
            None => Err(ValueError::NoValue),
        },
    }
}

fn part_of_list(alloc: Global, kind: OperandType, texts: &Texts) -> Result<Part, ValueError>
    requires fits { is_array kind ≡ true }
    requires other { as_column kind ≡ None }
    ensures valid { IfOk result (λ p. IsRight kind (right_of p)) }
    ensures ok { IfOk result (λ p. SpellsList kind texts.now (right_of p)) }
    ensures err { IfErr result (λ e. RefusesList kind texts.now e) }
{
    match kind {
        OperandType::TextArray => match texts.copy(alloc) {
            Ok(copy) => Ok(Part::Texts(copy)),
            Err(_) => Err(ValueError::Memory),
        },
        OperandType::LqueryArray => Ok(Part::Lqueries(queries_of(alloc, texts.as_slice())?)),
        _ => Err(ValueError::NoValue),
    }
}

fn part_of_bytes(alloc: Global, kind: OperandType, text: &[u8]) -> Result<Part, ValueError>
    requires { as_column kind ≡ None }
    ensures utf8 { IfOk result (λ p. IsUtf8 text.now) }
    ensures valid { IfOk result (λ p. IsRight kind (right_of p)) }
    ensures ok { IfOk result (λ p. SpellsRight kind text.now (right_of p)) }
    ensures err { IfErr result (λ e. RefusesText kind text.now e) }
{
    match str::from_utf8(text) {
        Ok(text) => part_of_text(alloc, kind, text),
        Err(_) => Err(ValueError::NoValue),
    }
}

fn part_of_text(alloc: Global, kind: OperandType, text: &str) -> Result<Part, ValueError>
    requires { as_column kind ≡ None }
    ensures valid { IfOk result (λ p. IsRight kind (right_of p)) }
    ensures ok { IfOk result (λ p. SpellsRight kind text.now (right_of p)) }
    ensures err { IfErr result (λ e. RefusesRight kind text.now e) }
{
    match kind {
        OperandType::TextArray => Ok(Part::Texts(Texts::read(alloc, text)?)),
        OperandType::Lquery => Ok(Part::Lquery(Lquery::read(alloc, text)?)),
        OperandType::LqueryArray => Ok(Part::Lqueries(queries_of_text(alloc, text)?)),
        OperandType::Ltxtquery => Ok(Part::Ltxtquery(Ltxtquery::read(alloc, text)?)),
        OperandType::QueryInt => Ok(Part::QueryInt(QueryInt::read(alloc, text)?)),
        _ => Err(ValueError::NoValue),
    }
}

/// The queries of an array text.
fn queries_of_text(alloc: Global, text: &str) -> Result<Lqueries, ValueError>
    ensures answers { MatchResult result (λ qs. SpellsRight operand.LqueryArray text.now (lqueries qs)) (RefusesRight operand.LqueryArray text.now) }
    ensures valid { IfOk result (λ qs. AllByRecursion IsLquery qs) }
{
    let texts = Texts::read(alloc, text)?;
    queries_of(alloc, texts.as_slice())
}

/// The queries of the elements, from the left.
fn queries_of(alloc: Global, texts: &[Bytes]) -> Result<Lqueries, ValueError>
    ensures answers { MatchResult result (AreQueries texts.now) (RefusesQueries texts.now) }
    ensures valid { IfOk result (λ qs. AllByRecursion IsLquery qs) }
{
    let mut queries = Lqueries::new(alloc);
    for text in texts {
        let query = query_of(alloc, text.as_slice())?;
        if queries.push(query).is_err() {
            return Err(ValueError::Memory);
        }
    }
    Ok(queries)
}

fn query_of(alloc: Global, text: &[u8]) -> Result<Lquery, ValueError>
    ensures answers { MatchResult result (SpellsElement text.now) (RefusesElement text.now) }
    ensures valid { IfOk result (λ query. IsLquery query) }
{
    match str::from_utf8(text) {
        Ok(text) => Lquery::read(alloc, text),
        Err(_) => Err(ValueError::NoValue),
    }
}
