//! Byte strings in one buffer.

ghost use Rattle.std.specs.Prelude.{◌≡◌, [], ◌∷◌, ◌++◌, length, OnOk, OnErr};
ghost use Rattle.gx_gin.specs.Parts.{cut};

use gx_bytes::NoMemory;
use std::alloc::Global;
use std::marker::Model;

// Where a string begins and ends.
#[derive(Clone, Copy, Debug, Drop)]
pub struct Part {
    pub from: usize,
    pub to: usize,
}

/// The string of a part of these bytes.
pub fn part_at(bytes: &[u8], part: Part) -> &[u8]
    ensures { result.now ≡ cut bytes.now part }
{
    let behind = &bytes[part.from.min(bytes.len())..];
    &behind[..part.to.saturating_sub(part.from).min(behind.len())]
}

/// Byte strings in any order, in one buffer.
#[derive(Debug, Drop)]
pub struct Strings {
    pub(crate) parts: Vec<Part>,
    pub(crate) bytes: Vec<u8>,
}

impl Model for Strings {
    ghost use Rattle.std.specs.Prelude.{List, ℕ, map};
    ghost use Rattle.gx_gin.specs.Parts.{cut, LieIn};

    ghost Value = { List (List ℕ) };

    ghost view = { λ s. map (cut s.bytes.items) s.parts.items };

    ghost invariant = { λ s. LieIn s.bytes.items s.parts.items };
}

impl Strings {
    /// No strings.
    pub fn new(alloc: Global) -> Strings
        ensures { result ≡ [] }
    {
        Strings {
            parts: Vec::new(alloc),
            bytes: Vec::new(alloc),
        }
    }

    pub fn len(&self) -> usize
        ensures { result ≡ length self.now }
    {
        self.parts.len()
    }

    /// Adds a string at the end.
    pub fn push(&mut self, string: &[u8]) -> Result<(), NoMemory>
        ensures ok { OnOk result (self.new ≡ self.old ++ string.now ∷ []) }
        ensures err { OnErr result (self.new ≡ self.old) }
    {
        self.parts.reserve(1)?;
        let from = self.bytes.len();
        self.bytes.extend_from_slice(string)?;
        let to = self.bytes.len();
        match self.parts.push(Part { from, to }) {
            Ok(()) => Ok(()),
            Err(_) => unreachable!(),
        }
    }
}
