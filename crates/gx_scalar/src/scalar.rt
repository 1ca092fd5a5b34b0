//! The values.

ghost use Rattle.std.specs.Prelude.{◌≡◌, IfOk};
ghost use Rattle.gx_scalar.specs.Values.{kind_of};

use gx_bytes::{Bytes, NoMemory};
use std::alloc::Global;

/// A scalar. A text is UTF-8, and a date is the number of a day of the years 1 to 9999, where
/// 1970-01-01 is 0.
#[derive(Debug, Drop)]
pub enum Scalar {
    Int4(i32),
    Int8(i64),
    Text(Bytes),
    Bytea(Bytes),
    Date(i32),
    Uuid(u128),
}

/// The types of scalars.
#[derive(Clone, Copy, Debug, PartialEq, Eq)]
pub enum ScalarKind {
    Int4,
    Int8,
    Text,
    Bytea,
    Date,
    Uuid,
}

impl Scalar {
    /// The type of the scalar.
    pub fn kind(&self) -> ScalarKind
        ensures { result ≡ kind_of self.now }
    {
        match self {
            Scalar::Int4(_) => ScalarKind::Int4,
            Scalar::Int8(_) => ScalarKind::Int8,
            Scalar::Text(_) => ScalarKind::Text,
            Scalar::Bytea(_) => ScalarKind::Bytea,
            Scalar::Date(_) => ScalarKind::Date,
            Scalar::Uuid(_) => ScalarKind::Uuid,
        }
    }

    /// A copy of the scalar.
    pub fn copy(&self, alloc: Global) -> Result<Scalar, NoMemory>
        ensures { IfOk result (λ copy. copy ≡ self.now) }
    {
        match self {
            Scalar::Int4(number) => Ok(Scalar::Int4(*number)),
            Scalar::Int8(number) => Ok(Scalar::Int8(*number)),
            Scalar::Text(bytes) => Ok(Scalar::Text(Bytes::from_slice(alloc, bytes.as_slice())?)),
            Scalar::Bytea(bytes) => Ok(Scalar::Bytea(Bytes::from_slice(alloc, bytes.as_slice())?)),
            Scalar::Date(day) => Ok(Scalar::Date(*day)),
            Scalar::Uuid(number) => Ok(Scalar::Uuid(*number)),
        }
    }
}
