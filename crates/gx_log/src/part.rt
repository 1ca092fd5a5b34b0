//! Bytes of the log that aren't written yet.

ghost use Rattle.std.specs.Prelude.{◌≡◌, ◌+◌, ◌≤◌, [], ◌++◌, length};

use std::marker::Model;

/// Bytes of the log that aren't written yet. They are seen as a list, and there is room for a count, an entry and a gate.
#[derive(Drop)]
pub struct Part {
    bytes: [u8; 8209],
    len: usize,
}

impl Model for Part {
    ghost use Rattle.std.specs.Prelude.{ℕ, ◌≤◌, List, take};

    ghost Value = { List ℕ };

    ghost view = { λ p. take p.len p.bytes };

    ghost invariant = { λ p. p.len ≤ 8209 };
}

impl Part {
    /// No bytes.
    pub fn new() -> Part
        ensures { result ≡ [] }
    {
        Part {
            bytes: [0; 8209],
            len: 0,
        }
    }

    /// The bytes.
    pub fn bytes(&self) -> &[u8]
        ensures { result.now ≡ self.now }
    {
        &self.bytes[..self.len]
    }

    /// Adds bytes at the end.
    pub fn add(&mut self, more: &[u8])
        requires { length self.old + length more.now ≤ 8209 }
        ensures { self.new ≡ self.old ++ more.now }
    {
        let end = self.len + more.len();
        self.bytes[self.len..end].copy_from_slice(more);
        self.len = end;
    }

    /// Takes all bytes away.
    pub fn clear(&mut self)
        ensures { self.new ≡ [] }
    {
        self.len = 0;
    }
}
