//! The bytes of a path in a row, which are its text.

ghost use Rattle.std.specs.Prelude.{◌≡◌, ◌++◌, OnOk};
ghost use Rattle.gx_ltree.specs.Text.{printed, DecodesTo};

use crate::path::Path;
use crate::print::print_labels;
use crate::text::path_of;
use gx_bytes::{Bytes, NoMemory, ValueError};
use std::alloc::{AllocError, Global};

impl Path {
    /// Appends the bytes of the path in a row, which are its text.
    pub fn encode(&self, to: &mut Bytes) -> Result<(), NoMemory>
        ensures { OnOk result (to.new ≡ to.old ++ printed self.now) }
    {
        print_labels(self.labels(), to)
    }

    /// The path whose text these bytes are.
    pub fn decode(alloc: Global, bytes: &[u8]) -> Result<Option<Path>, NoMemory>
        ensures { DecodesTo bytes.now result }
    {
        match path_of(alloc, bytes) {
            Ok(path) => Ok(Some(path)),
            Err(fault) => match fault {
                ValueError::Memory => Err(AllocError),
                _ => Ok(None),
            },
        }
    }
}
