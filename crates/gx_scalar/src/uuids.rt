//! Identifiers as text and bytes, by `uuid`.

ghost use Rattle.std.specs.Prelude.{◌≡◌, ◌++◌, OnOk};
ghost use Rattle.std.specs.Int.{w128, to_be_bytes};
ghost use Rattle.uuid.specs.Text.{hyphenated_text, lower};
ghost use Rattle.gx_scalar.specs.declared.scalar.ScalarKind.TheVariants as kinds;
ghost use Rattle.gx_scalar.specs.Texts.{AnswersScalar};

use crate::Scalar;
use gx_bytes::{Bytes, NoMemory, ValueError};
use uuid::Uuid;

/// Each text that `uuid` parses.
pub fn uuid_of(text: &str) -> Result<Scalar, ValueError>
    ensures { AnswersScalar kinds.Uuid text.now result }
{
    match Uuid::parse_str(text) {
        Ok(id) => Ok(Scalar::Uuid(id.as_u128())),
        Err(_) => Err(ValueError::NoValue),
    }
}

pub fn print_uuid(number: u128, to: &mut Bytes) -> Result<(), NoMemory>
    ensures { OnOk result (to.new ≡ to.old ++ hyphenated_text lower (to_be_bytes w128 number)) }
{
    let mut buffer = Uuid::encode_buffer();
    let text = Uuid::from_u128(number)
        .hyphenated()
        .encode_lower(&mut buffer);
    to.extend_from_slice(text.as_bytes())?;
    Ok(())
}
