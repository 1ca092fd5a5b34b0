//! Byte strings as text, by `hex`.

ghost use Rattle.std.specs.Prelude.{◌≡◌, ◌++◌, ◌∷◌, OnOk, MatchResult};
ghost use Rattle.hex.specs.Hex.{encode_lower};
ghost use Rattle.gx_scalar.specs.declared.scalar.ScalarKind.TheVariants as kinds;
ghost use Rattle.gx_scalar.specs.Texts.{AnswersScalar};

use crate::Scalar;
use gx_bytes::{Bytes, NoMemory, ValueError};
use hex::FromHexError;
use std::alloc::Global;

/// `\x` and two hexadecimal digits for each byte.
pub fn bytea_of(alloc: Global, text: &str) -> Result<Scalar, ValueError>
    ensures { AnswersScalar kinds.Bytea text.now result }
{
    let Some(digits) = text.as_bytes().strip_prefix(b"\\x") else {
        return Err(ValueError::NoValue);
    };
    match hex::decode(alloc, digits) {
        Ok(bytes) => Ok(Scalar::Bytea(copy_of(alloc, bytes.as_slice())?)),
        Err(fault) => match fault {
            FromHexError::OutOfMemory => Err(ValueError::Memory),
            _ => Err(ValueError::NoValue),
        },
    }
}

pub fn print_bytea(bytes: &[u8], to: &mut Bytes) -> Result<(), NoMemory>
    ensures { OnOk result (to.new ≡ to.old ++ 92 ∷ 120 ∷ encode_lower bytes.now) }
{
    let digits = hex::encode(to.allocator(), bytes)?;
    to.extend_from_slice(b"\\x")?;
    to.extend_from_slice(digits.as_bytes())?;
    Ok(())
}

fn copy_of(alloc: Global, bytes: &[u8]) -> Result<Bytes, ValueError>
    ensures { MatchResult result (λ copy. copy ≡ bytes.now) (λ fault. fault ≡ ValueError.Memory) }
{
    Bytes::from_slice(alloc, bytes).map_err(|_| ValueError::Memory)
}
