//! Texts as values and as operands.

ghost use Rattle.std.specs.Prelude.{◌≡◌, IfOk};
ghost use Rattle.gx_value.specs.Literals.{IsLiteral};
ghost use Rattle.gx_value.specs.Values.{datum_of, IsDatum};
ghost use Rattle.gx_opr.specs.Operands.{right_of};
ghost use Rattle.gx_candidates.specs.Queries.{IsValidRight};

use gx_bytes::{Bytes, NoMemory, ValueError};
use gx_intarr::Texts;
use gx_opr::{Operand, read_operand, resolve};
use gx_value::{ColumnType, Form, Literal, Operator, Value, read_value};
use std::alloc::Global;

fn literal_of(alloc: Global, text: &str) -> Result<Literal, NoMemory>
    ensures literal { IfOk result (λ l. IsLiteral l) }
    ensures form { IfOk result (λ l. l.form ≡ Form.Text) }
{
    let mut texts = Texts::new(alloc);
    texts.push(Bytes::from_slice(alloc, text.as_bytes())?)?;
    Ok(Literal {
        form: Form::Text,
        texts,
    })
}

/// The value that a text is.
pub fn value_of(alloc: Global, kind: ColumnType, text: &str) -> Result<Value, ValueError>
    ensures { IfOk result (λ v. IsDatum (datum_of v)) }
{
    let Ok(literal) = literal_of(alloc, text) else {
        return Err(ValueError::Memory);
    };
    match read_value(alloc, kind, &literal)? {
        Some(value) => Ok(value),
        None => Err(ValueError::NoValue),
    }
}

/// The operand that a text is beside the operator, with such a column on the left.
pub fn operand_of(
    alloc: Global,
    column: ColumnType,
    op: Operator,
    text: &str,
) -> Result<Operand, ValueError>
    ensures { IfOk result (λ o. IsValidRight (right_of o.part)) }
{
    let Ok(kind) = resolve(column, op, Form::Text, None) else {
        return Err(ValueError::NoValue);
    };
    let Ok(literal) = literal_of(alloc, text) else {
        return Err(ValueError::Memory);
    };
    match read_operand(alloc, kind, &literal)? {
        Some(operand) => Ok(operand),
        None => Err(ValueError::NoValue),
    }
}
