//! The literals of a condition as operands.

ghost use Rattle.std.specs.Prelude.{◌≡◌, true, false, [], ◌∷◌, None, IfOk, IfErr, MatchOption, MatchResult, option_map};
ghost use Rattle.gx_value.specs.Literals.{IsLiteral};
ghost use Rattle.gx_value.specs.Types.{operand_named};
ghost use Rattle.gx_opr.specs.Literals.{ReadsOperand};
ghost use Rattle.gx_opr.specs.Operands.{right_of, IsOperand};
ghost use Rattle.gx_opr.specs.Resolving.{fits};
ghost use Rattle.gx_model.specs.Checks.{is_operand};
ghost use Rattle.gx_model.specs.Conditions.{atom_checks, cast_type, is_unknown_type};
ghost use Rattle.gx_model.specs.Refusals.{Refuses};
ghost use Rattle.gx_model.specs.declared.refusal.Refusal.TheVariants.{Fault};
ghost use Rattle.gx_plan.specs.Bindings.{refusal_of, IsOperandFor};
ghost use Rattle.gx_plan.specs.Bounds.{operand_of};

use gx_bytes::ValueError;
use gx_model::Refusal;
use gx_opr::{Operand, read_operand, resolve};
use gx_parse::{Given, TypeWord};
use gx_value::{Column, Literal, OperandType, Operator};
use std::alloc::Global;
use std::str;

/// The literal as an operand of the operator on the column; None is NULL. Its first fault is E6, E11, E8, E9 or E18.
pub fn bind_operand(
    alloc: Global,
    column: &Column,
    op: Operator,
    given: &Given,
) -> Result<Option<Operand>, Refusal>
    requires literal { IsLiteral given.now.literal }
    ensures { MatchResult result (λ found. IsOperandFor column.now op given.now (option_map operand_of found)) (Refuses (atom_checks op given.now column.now)) }
{
    let cast = cast_type(&given.cast)?;
    match resolve(column.kind, op, given.literal.form, cast) {
        Ok(kind) => read_literal(alloc, kind, &given.literal),
        Err(_) => Err(Refusal::Fault { number: 11 }),
    }
}

/// The type of a cast; E6 where its word names none.
fn cast_type(cast: &Option<TypeWord>) -> Result<Option<OperandType>, Refusal>
    ensures { MatchResult result
        (λ kind. (is_unknown_type cast.now ≡ false) × (kind ≡ cast_type cast.now))
        (λ refusal. (is_unknown_type cast.now ≡ true) × (refusal ≡ Fault 6)) }
{
    match cast {
        None => Ok(None),
        Some(word) => match type_named(word) {
            Some(kind) => Ok(Some(kind)),
            None => Err(Refusal::Fault { number: 6 }),
        },
    }
}

fn type_named(word: &TypeWord) -> Option<OperandType>
    ensures { result ≡ operand_named word.now.word word.now.list }
{
    match str::from_utf8(word.word.as_slice()) {
        Ok(text) => OperandType::named(text, word.list),
        Err(_) => None,
    }
}

fn read_literal(
    alloc: Global,
    kind: OperandType,
    literal: &Literal,
) -> Result<Option<Operand>, Refusal>
    requires literal { IsLiteral literal.now }
    requires fits { fits literal.now.form kind ≡ true }
    ensures valid { IfOk result (λ found. MatchOption found (Unit {0}) (λ o. (o.kind ≡ kind) × IsOperand o)) }
    ensures ok { IfOk result (λ found. ReadsOperand kind literal.now (option_map (λ o. right_of o.part) found)) }
    ensures err { IfErr result (Refuses (is_operand kind literal.now ∷ [])) }
{
    match read_operand(alloc, kind, literal) {
        Ok(found) => Ok(found),
        Err(fault) => Err(refusal_of(fault)),
    }
}

fn refusal_of(fault: ValueError) -> Refusal
    ensures { result ≡ refusal_of fault }
{
    match fault {
        ValueError::NoValue => Refusal::Fault { number: 8 },
        ValueError::OutOfRange => Refusal::Fault { number: 9 },
        ValueError::TooDeep => Refusal::Fault { number: 18 },
        ValueError::Memory => Refusal::Memory,
    }
}
