//! Literals as values, and values as text.

ghost use Rattle.std.specs.Prelude.{◌≡◌, ◌++◌, IsUtf8, IfOk, IfErr, OnOk, option_map};
ghost use Rattle.gx_value.specs.Values.{datum_of, IsField, IsValue, IsOfFamily};
ghost use Rattle.gx_value.specs.Literals.{IsLiteral, Reads, RefusesLiteral, Spells, Refuses, RefusesText, SpellsList, RefusesList};
ghost use Rattle.gx_value.specs.Rows.{printed};

use crate::literal::{Form, Literal};
use crate::types::{ColumnType, Family};
use crate::value::Value;
use gx_bytes::{Bytes, NoMemory, ValueError};
use gx_hstore::Hstore;
use gx_inet::Inet;
use gx_intarr::{IntArray, Texts};
use gx_json::Json;
use gx_ltree::Path;
use gx_range::Range;
use gx_scalar::Scalar;
use std::alloc::Global;
use std::str;

/// Reads a literal as a value of the column type; None is NULL. A number is read as its text, and a list as an
/// array of int4 alone. The errors are those of the type's texts; a list for another type, and a text that isn't
/// UTF-8, are no value.
pub fn read_value(
    alloc: Global,
    kind: ColumnType,
    literal: &Literal,
) -> Result<Option<Value>, ValueError>
    requires { IsLiteral literal.now }
    ensures valid { IfOk result (λ v. IsField kind (option_map datum_of v)) }
    ensures ok { IfOk result (λ v. Reads kind literal.now (option_map datum_of v)) }
    ensures err { IfErr result (λ e. RefusesLiteral kind literal.now e) }
{
    match literal.form {
        Form::Null => Ok(None),
        Form::List => Ok(Some(value_of_list(alloc, kind.family(), &literal.texts)?)),
        Form::Text | Form::Number => match literal.texts.text(0) {
            Some(text) => Ok(Some(value_of_bytes(alloc, kind.family(), text)?)),
            None => Err(ValueError::NoValue),
        },
    }
}

fn value_of_list(alloc: Global, family: Family, texts: &Texts) -> Result<Value, ValueError>
    ensures valid { IfOk result (λ v. IsOfFamily family (datum_of v)) }
    ensures ok { IfOk result (λ v. SpellsList family texts.now (datum_of v)) }
    ensures err { IfErr result (λ e. RefusesList family texts.now e) }
{
    match family {
        Family::IntArray => Ok(Value::IntArray(IntArray::from_texts(alloc, texts)?)),
        _ => Err(ValueError::NoValue),
    }
}

fn value_of_bytes(alloc: Global, family: Family, text: &[u8]) -> Result<Value, ValueError>
    ensures utf8 { IfOk result (λ v. IsUtf8 text.now) }
    ensures valid { IfOk result (λ v. IsOfFamily family (datum_of v)) }
    ensures ok { IfOk result (λ v. Spells family text.now (datum_of v)) }
    ensures err { IfErr result (λ e. RefusesText family text.now e) }
{
    match str::from_utf8(text) {
        Ok(text) => value_of_text(alloc, family, text),
        Err(_) => Err(ValueError::NoValue),
    }
}

fn value_of_text(alloc: Global, family: Family, text: &str) -> Result<Value, ValueError>
    ensures valid { IfOk result (λ v. IsOfFamily family (datum_of v)) }
    ensures ok { IfOk result (λ v. Spells family text.now (datum_of v)) }
    ensures err { IfErr result (λ e. Refuses family text.now e) }
{
    match family {
        Family::Scalar(kind) => Ok(Value::Scalar(Scalar::read(alloc, kind, text)?)),
        Family::Range(kind) => Ok(Value::Range(Range::read(alloc, kind, text)?)),
        Family::Inet => Ok(Value::Inet(Inet::read(alloc, text)?)),
        Family::Path => Ok(Value::Path(Path::read(alloc, text)?)),
        Family::Hstore => Ok(Value::Hstore(Hstore::read(alloc, text)?)),
        Family::Json => Ok(Value::Json(Json::read(alloc, text)?)),
        Family::IntArray => Ok(Value::IntArray(IntArray::read(alloc, text)?)),
    }
}

/// Appends the printed text of a value of the column type.
pub fn print_value(kind: ColumnType, value: &Value, to: &mut Bytes) -> Result<(), NoMemory>
    requires { IsValue kind (datum_of value.now) }
    ensures { OnOk result (to.new ≡ to.old ++ printed kind (datum_of value.now)) }
{
    match (kind.family(), value) {
        (_, Value::Scalar(scalar)) => scalar.print(to),
        (Family::Range(kind), Value::Range(range)) => range.print(kind, to),
        (_, Value::Range(_)) => Ok(()),
        (_, Value::Inet(inet)) => inet.print(to),
        (_, Value::Path(path)) => path.print(to),
        (_, Value::Hstore(hstore)) => hstore.print(to),
        (_, Value::IntArray(array)) => array.print(to),
        (_, Value::Json(json)) => json.print(to),
    }
}
