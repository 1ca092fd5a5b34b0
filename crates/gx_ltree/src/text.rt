//! The reader of paths.

ghost use Rattle.std.specs.Prelude.{◌<◌, length};
ghost use Rattle.gx_ltree.specs.Text.{AnswersPath};

use crate::label::take_label;
use crate::path::Path;
use gx_bytes::{ValueError, behind_byte};
use std::alloc::Global;

/// The greatest number of labels of a path.
const MOST_LABELS: usize = 65535;

impl Path {
    /// Reads labels with dots between them; the empty text is the empty path. OutOfRange where the text
    /// begins with 65,536 labels, whatever comes after them; NoValue for every other text that spells none.
    pub fn read(alloc: Global, text: &str) -> Result<Path, ValueError>
        ensures { AnswersPath text.now result }
    {
        path_of(alloc, text.as_bytes())
    }
}

pub(crate) fn path_of(alloc: Global, text: &[u8]) -> Result<Path, ValueError>
    ensures { AnswersPath text.now result }
{
    if text.is_empty() {
        return Ok(Path::new(alloc));
    }
    labels_of(alloc, text)
}

fn labels_of(alloc: Global, text: &[u8]) -> Result<Path, ValueError>
    requires { 0 < length text.now }
    ensures { AnswersPath text.now result }
{
    let mut path = Path::new(alloc);
    let mut rest = text;
    'labels: loop {
        let Some((label, after)) = take_label(rest) else {
            return Err(ValueError::NoValue);
        };
        if path.count() == MOST_LABELS {
            return Err(ValueError::OutOfRange);
        }
        path.push(label).map_err(|_| ValueError::Memory)?;
        if after.is_empty() {
            return Ok(path);
        }
        let Some(more) = behind_byte(after, b'.') else {
            return Err(ValueError::NoValue);
        };
        rest = more;
    }
}
