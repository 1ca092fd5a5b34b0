//! The printed text of a path.

ghost use Rattle.std.specs.Prelude.{◌≡◌, ◌++◌, OnOk};
ghost use Rattle.gx_ltree.specs.Text.{printed, dots};

use crate::path::Path;
use gx_bytes::{Bytes, NoMemory};

impl Path {
    /// Appends the labels with dots between them.
    pub fn print(&self, to: &mut Bytes) -> Result<(), NoMemory>
        ensures { OnOk result (to.new ≡ to.old ++ printed self.now) }
    {
        print_labels(self.labels(), to)
    }
}

pub(crate) fn print_labels(labels: &[Bytes], to: &mut Bytes) -> Result<(), NoMemory>
    ensures { OnOk result (to.new ≡ to.old ++ printed labels.now) }
{
    let [first, rest @ ..] = labels else {
        return Ok(());
    };
    to.extend_from_slice(first.as_slice())?;
    print_more(rest, to)
}

/// Appends the labels with a dot before each.
fn print_more(labels: &[Bytes], to: &mut Bytes) -> Result<(), NoMemory>
    ensures { OnOk result (to.new ≡ to.old ++ dots labels.now) }
{
    for label in labels {
        to.push(b'.')?;
        to.extend_from_slice(label.as_slice())?;
    }
    Ok(())
}
