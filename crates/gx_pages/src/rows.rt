//! Rows with their bytes.

ghost use Rattle.std.specs.Prelude.{◌≡◌, ◌≤◌, [], ◌∷◌, ◌++◌, length, slice_get, Some, None, IfSome, IfNone, OnOk, OnErr};
ghost use Rattle.gx_pages.specs.declared.row.RowRef.{RowRef};

use crate::row::RowRef;
use std::alloc::{AllocError, Global};
use std::marker::Model;

// A row, and where its bytes begin and end.
#[derive(Clone, Copy, Debug, Drop)]
pub struct Part {
    pub row: RowRef,
    pub from: usize,
    pub to: usize,
}

/// Rows with their bytes, in one buffer.
#[derive(Debug, Drop)]
pub struct Rows {
    parts: Vec<Part>,
    bytes: Vec<u8>,
}

impl Model for Rows {
    ghost use Rattle.std.specs.Prelude.{List, ℕ, map};
    ghost use Rattle.gx_pages.specs.declared.row.RowRef.{RowRef};
    ghost use Rattle.gx_pages.specs.Rows.{part_of, LieIn};

    ghost Value = { List (RowRef × List ℕ) };

    ghost view = { λ r. map (part_of r.bytes.items) r.parts.items };

    ghost invariant = { λ r. LieIn r.bytes.items r.parts.items };
}

impl Rows {
    /// No rows.
    pub fn new(alloc: Global) -> Rows
        ensures { result ≡ [] }
    {
        Rows {
            parts: Vec::new(alloc),
            bytes: Vec::new(alloc),
        }
    }

    pub fn len(&self) -> usize
        ensures { result ≡ length self.now }
    {
        self.parts.len()
    }

    /// Adds a row at the end.
    pub fn push(&mut self, row: RowRef, bytes: &[u8]) -> Result<(), AllocError>
        ensures ok { OnOk result (self.new ≡ self.old ++ (row, bytes.now) ∷ []) }
        ensures err { OnErr result (self.new ≡ self.old) }
    {
        self.parts.reserve(1)?;
        let from = self.bytes.len();
        self.bytes.extend_from_slice(bytes)?;
        let to = self.bytes.len();
        match self.parts.push(Part { row, from, to }) {
            Ok(()) => Ok(()),
            Err(_) => unreachable!(),
        }
    }

    /// The row at this place and its bytes. None where there are no more.
    pub fn get(&self, at: usize) -> Option<(RowRef, &[u8])>
        ensures some { IfSome result (λ found. slice_get self.now at ≡ Some (found.0, found.1.now)) }
        ensures none { IfNone result (length self.now ≤ at) }
    {
        if at >= self.parts.len() {
            return None;
        }
        let part = self.parts[at];
        Some((part.row, &self.bytes[part.from..part.to]))
    }
}
