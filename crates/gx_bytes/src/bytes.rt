//! A growing list of bytes.

ghost use Rattle.std.specs.Prelude.{◌≡◌, ◌==◌, ℕ, List, [], ◌∷◌, ◌++◌, length, take, IfOk, OnOk, OnErr};

use crate::NoMemory;
use std::alloc::Global;
use std::marker::Model;

/// A growing list of bytes. It keeps the allocator that it was made with.
#[derive(Debug, Drop)]
pub struct Bytes {
    buffer: Vec<u8>,
}

impl Model for Bytes {
    ghost Value = { List ℕ };

    ghost view = { λ b. b.buffer.items };
}

impl Bytes {
    /// No bytes.
    pub fn new(alloc: Global) -> Bytes
        ensures { result ≡ [] }
    {
        Bytes {
            buffer: Vec::new(alloc),
        }
    }

    /// A copy of these bytes.
    pub fn from_slice(alloc: Global, bytes: &[u8]) -> Result<Bytes, NoMemory>
        ensures { IfOk result (λ made. made ≡ bytes.now) }
    {
        Ok(Bytes {
            buffer: Vec::from_slice(alloc, bytes)?,
        })
    }

    /// The same bytes once more.
    pub fn copy(&self, alloc: Global) -> Result<Bytes, NoMemory>
        ensures { IfOk result (λ made. made ≡ self.now) }
    {
        Bytes::from_slice(alloc, self.as_slice())
    }

    pub fn as_slice(&self) -> &[u8]
        ensures { result.now ≡ self.now }
    {
        self.buffer.as_slice()
    }

    pub fn len(&self) -> usize
        ensures { result ≡ length self.now }
    {
        self.buffer.len()
    }

    pub fn is_empty(&self) -> bool
        ensures { result ≡ (length self.now == 0) }
    {
        self.buffer.is_empty()
    }

    /// Adds a byte at the end.
    pub fn push(&mut self, byte: u8) -> Result<(), NoMemory>
        ensures ok { OnOk result (self.new ≡ self.old ++ byte ∷ []) }
        ensures err { OnErr result (self.new ≡ self.old) }
    {
        self.buffer.push(byte)?;
        Ok(())
    }

    /// Adds these bytes at the end.
    pub fn extend_from_slice(&mut self, bytes: &[u8]) -> Result<(), NoMemory>
        ensures ok { OnOk result (self.new ≡ self.old ++ bytes.now) }
        ensures err { OnErr result (self.new ≡ self.old) }
    {
        self.buffer.extend_from_slice(bytes)
    }

    /// Keeps the first `len` bytes, or all where there are no more.
    pub fn truncate(&mut self, len: usize)
        ensures { self.new ≡ take len self.old }
    {
        self.buffer.truncate(len);
    }

    /// The allocator that the bytes grow with.
    pub fn allocator(&self) -> Global {
        *self.buffer.allocator()
    }
}
