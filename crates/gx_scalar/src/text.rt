//! Scalars from text.

ghost use Rattle.gx_scalar.specs.declared.scalar.ScalarKind.TheVariants as kinds;
ghost use Rattle.gx_scalar.specs.Texts.{AnswersScalar};

use crate::bytea::bytea_of;
use crate::uuids::uuid_of;
use crate::{Scalar, ScalarKind};
use gx_bytes::{Bytes, ValueError, read_day, read_whole};
use std::alloc::Global;

impl Scalar {
    /// Reads a scalar of that type. A number that the type doesn't have, or a day that the calendar
    /// lacks, is out of range; any other text that spells no scalar of the type is no value.
    pub fn read(alloc: Global, kind: ScalarKind, text: &str) -> Result<Scalar, ValueError>
        ensures { AnswersScalar kind text.now result }
    {
        match kind {
            ScalarKind::Int4 => int4_of(text),
            ScalarKind::Int8 => int8_of(text),
            ScalarKind::Text => text_of(alloc, text),
            ScalarKind::Bytea => bytea_of(alloc, text),
            ScalarKind::Date => date_of(text),
            ScalarKind::Uuid => uuid_of(text),
        }
    }
}

fn int4_of(text: &str) -> Result<Scalar, ValueError>
    ensures { AnswersScalar kinds.Int4 text.now result }
{
    match read_whole(text, i64::from(i32::MIN), i64::from(i32::MAX)) {
        Ok(number) => Ok(Scalar::Int4(number as i32)),
        Err(fault) => Err(fault),
    }
}

fn int8_of(text: &str) -> Result<Scalar, ValueError>
    ensures { AnswersScalar kinds.Int8 text.now result }
{
    match read_whole(text, i64::MIN, i64::MAX) {
        Ok(number) => Ok(Scalar::Int8(number)),
        Err(fault) => Err(fault),
    }
}

fn text_of(alloc: Global, text: &str) -> Result<Scalar, ValueError>
    ensures { AnswersScalar kinds.Text text.now result }
{
    match Bytes::from_slice(alloc, text.as_bytes()) {
        Ok(bytes) => Ok(Scalar::Text(bytes)),
        Err(_) => Err(ValueError::Memory),
    }
}

fn date_of(text: &str) -> Result<Scalar, ValueError>
    ensures { AnswersScalar kinds.Date text.now result }
{
    match read_day(text) {
        Ok(day) => Ok(Scalar::Date(day)),
        Err(fault) => Err(fault),
    }
}
