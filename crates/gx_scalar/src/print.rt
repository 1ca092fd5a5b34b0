//! The printed text of scalars.

ghost use Rattle.std.specs.Prelude.{◌≡◌, ◌++◌, OnOk};
ghost use Rattle.gx_scalar.specs.Values.{IsValid};
ghost use Rattle.gx_scalar.specs.Texts.{printed};

use crate::Scalar;
use crate::bytea::print_bytea;
use crate::uuids::print_uuid;
use gx_bytes::{Bytes, NoMemory, print_day, print_whole};

impl Scalar {
    /// Appends the printed text.
    pub fn print(&self, to: &mut Bytes) -> Result<(), NoMemory>
        requires { IsValid self.now }
        ensures { OnOk result (to.new ≡ to.old ++ printed self.now) }
    {
        match self {
            Scalar::Int4(number) => print_whole(i64::from(*number), to),
            Scalar::Int8(number) => print_whole(*number, to),
            Scalar::Text(bytes) => to.extend_from_slice(bytes.as_slice()),
            Scalar::Bytea(bytes) => print_bytea(bytes.as_slice(), to),
            Scalar::Date(day) => print_day(*day, to),
            Scalar::Uuid(number) => print_uuid(*number, to),
        }
    }
}
