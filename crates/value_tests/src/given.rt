//! Literals, and the values that they are.

ghost use Rattle.std.specs.Prelude.{◌≡◌, IfOk};
ghost use Rattle.gx_value.specs.Literals.{IsLiteral};
ghost use Rattle.gx_value.specs.Values.{datum_of, IsValue};

use gx_bytes::{Bytes, NoMemory, ValueError};
use gx_intarr::Texts;
use gx_value::{ColumnType, Form, Literal, Value, read_value};
use std::alloc::Global;

/// A text.
pub fn text_literal(alloc: Global, text: &[u8]) -> Result<Literal, NoMemory>
    ensures literal { IfOk result (λ l. IsLiteral l) }
    ensures form { IfOk result (λ l. l.form ≡ Form.Text) }
{
    let mut texts = Texts::new(alloc);
    texts.push(Bytes::from_slice(alloc, text)?)?;
    Ok(Literal {
        form: Form::Text,
        texts,
    })
}

fn number_literal(alloc: Global, text: &[u8]) -> Result<Literal, NoMemory>
    ensures literal { IfOk result (λ l. IsLiteral l) }
    ensures form { IfOk result (λ l. l.form ≡ Form.Number) }
{
    let mut texts = Texts::new(alloc);
    texts.push(Bytes::from_slice(alloc, text)?)?;
    Ok(Literal {
        form: Form::Number,
        texts,
    })
}

/// A list of the words of a text.
fn list_literal(alloc: Global, text: &str) -> Result<Literal, NoMemory>
    ensures literal { IfOk result (λ l. IsLiteral l) }
    ensures form { IfOk result (λ l. l.form ≡ Form.List) }
{
    let mut texts = Texts::new(alloc);
    for word in text.split_whitespace() {
        texts.push(Bytes::from_slice(alloc, word.as_bytes())?)?;
    }
    Ok(Literal {
        form: Form::List,
        texts,
    })
}

/// A literal of this form: a text or a number as it is written, a list of the words of the text, or NULL.
pub fn literal_of(alloc: Global, form: Form, text: &str) -> Result<Literal, NoMemory>
    ensures literal { IfOk result (λ l. IsLiteral l) }
    ensures form { IfOk result (λ l. l.form ≡ form) }
{
    match form {
        Form::Text => text_literal(alloc, text.as_bytes()),
        Form::Number => number_literal(alloc, text.as_bytes()),
        Form::List => list_literal(alloc, text),
        Form::Null => Ok(Literal {
            form: Form::Null,
            texts: Texts::new(alloc),
        }),
    }
}

/// The value that a text is.
pub fn value_of(alloc: Global, kind: ColumnType, text: &str) -> Result<Value, ValueError>
    ensures { IfOk result (λ v. IsValue kind (datum_of v)) }
{
    let Ok(literal) = text_literal(alloc, text.as_bytes()) else {
        return Err(ValueError::Memory);
    };
    match read_value(alloc, kind, &literal)? {
        Some(value) => Ok(value),
        None => Err(ValueError::NoValue),
    }
}
