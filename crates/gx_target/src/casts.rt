//! Words of types.

ghost use Rattle.std.specs.Prelude.{◌≡◌, [], ◌∷◌, None, MatchResult};
ghost use Rattle.gx_model.specs.Checks.{Find, fault_where};
ghost use Rattle.gx_model.specs.Conditions.{cast_type, is_unknown_type};
ghost use Rattle.gx_model.specs.Faults.{is_other_type, type_of};
ghost use Rattle.gx_model.specs.Refusals.{Refuses};
ghost use Rattle.gx_value.specs.Types.{operand_named, same_operand, as_operand};
ghost use Rattle.gx_target.specs.Encoded.{cast_checks};

use gx_model::Refusal;
use gx_parse::TypeWord;
use gx_value::{ColumnType, OperandType};
use std::str;

/// The column type that a word names.
pub fn column_type(word: &TypeWord) -> Option<ColumnType>
    ensures { result ≡ type_of word.now }
{
    operand_type(word)?.as_column()
}

/// The type that a word names.
fn operand_type(word: &TypeWord) -> Option<OperandType>
    ensures { result ≡ operand_named word.now.word word.now.list }
{
    match str::from_utf8(word.word.as_slice()) {
        Ok(text) => OperandType::named(text, word.list),
        Err(_) => None,
    }
}

/// Checks the cast of a value of the column type: E6 where it names no type, E8 where it names another.
pub fn check_cast(kind: ColumnType, cast: &Option<TypeWord>) -> Result<(), Refusal>
    ensures { MatchResult result (λ _. Find (cast_checks kind cast.now) None) (Refuses (cast_checks kind cast.now)) }
{
    let Some(word) = cast else {
        return Ok(());
    };
    let Some(named) = operand_type(word) else {
        return Err(Refusal::Fault { number: 6 });
    };
    if is_type(named, kind) {
        Ok(())
    } else {
        Err(Refusal::Fault { number: 8 })
    }
}

/// Whether an operand's type is the column type.
fn is_type(operand: OperandType, kind: ColumnType) -> bool
    ensures { result ≡ same_operand operand (as_operand kind) }
{
    match operand.as_column() {
        Some(other) => other.number() == kind.number(),
        None => false,
    }
}
