//! A path.

ghost use Rattle.std.specs.Prelude.{◌≡◌, ℕ, List, [], ◌∷◌, ◌++◌, length, IfOk, OnOk, OnErr, option_map, slice_get};

use gx_bytes::{Bytes, NoMemory};
use std::alloc::Global;
use std::marker::Model;

/// A list of labels. It keeps the allocator that it was made with.
/// Valid where it has at most 65,535 labels, each of 1 to 1,000 letters, digits, `_` and `-`.
#[derive(Debug, Drop)]
pub struct Path {
    labels: Vec<Bytes>,
}

impl Model for Path {
    ghost Value = { List (List ℕ) };

    ghost view = { λ p. p.labels.items };
}

impl Path {
    /// The empty path.
    pub fn new(alloc: Global) -> Path
        ensures { result ≡ [] }
    {
        Path {
            labels: Vec::new(alloc),
        }
    }

    /// Adds a label at the end.
    pub fn push(&mut self, label: &[u8]) -> Result<(), NoMemory>
        ensures ok { OnOk result (self.new ≡ self.old ++ label.now ∷ []) }
        ensures err { OnErr result (self.new ≡ self.old) }
    {
        let copy = Bytes::from_slice(*self.labels.allocator(), label)?;
        self.labels.push(copy)?;
        Ok(())
    }

    /// How many labels it has.
    pub fn count(&self) -> usize
        ensures { result ≡ length self.now }
    {
        self.labels.len()
    }

    /// The label at this place, counted from 0.
    pub fn label(&self, at: usize) -> Option<&[u8]>
        ensures { option_map (λ label. label.now) result ≡ slice_get self.now at }
    {
        match self.labels.get(at) {
            Some(label) => Some(label.as_slice()),
            None => None,
        }
    }

    /// The labels in order.
    pub fn labels(&self) -> &[Bytes]
        ensures { result.now ≡ self.now }
    {
        self.labels.as_slice()
    }

    /// A copy of the path.
    pub fn copy(&self, alloc: Global) -> Result<Path, NoMemory>
        ensures { IfOk result (λ path. path ≡ self.now) }
    {
        let mut path = Path::new(alloc);
        for label in self.labels() {
            path.push(label.as_slice())?;
        }
        Ok(path)
    }
}
