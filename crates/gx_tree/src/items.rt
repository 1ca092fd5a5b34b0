//! Items of a page, in one buffer.

ghost use Rattle.std.specs.Prelude.{◌≡◌, ◌≤◌, [], ◌∷◌, ◌++◌, length, slice_get, Some, IfSome, IfNone, OnOk, OnErr};

use std::alloc::{AllocError, Global};
use std::marker::Model;

/// Where an item begins and ends.
#[derive(Clone, Copy, Debug, Drop)]
pub struct Span {
    pub from: usize,
    pub to: usize,
}

/// Items, in one buffer.
#[derive(Debug, Drop)]
pub struct Items {
    spans: Vec<Span>,
    bytes: Vec<u8>,
}

impl Model for Items {
    ghost use Rattle.std.specs.Prelude.{List, ℕ, map};
    ghost use Rattle.gx_tree.specs.Spans.{span_of, LieIn};

    ghost Value = { List (List ℕ) };

    ghost view = { λ r. map (span_of r.bytes.items) r.spans.items };

    ghost invariant = { λ r. LieIn r.bytes.items r.spans.items };
}

impl Items {
    /// No items.
    pub fn new(alloc: Global) -> Items
        ensures { result ≡ [] }
    {
        Items {
            spans: Vec::new(alloc),
            bytes: Vec::new(alloc),
        }
    }

    pub fn len(&self) -> usize
        ensures { result ≡ length self.now }
    {
        self.spans.len()
    }

    /// Adds an item at the end.
    pub fn push(&mut self, item: &[u8]) -> Result<(), AllocError>
        ensures ok { OnOk result (self.new ≡ self.old ++ item.now ∷ []) }
        ensures err { OnErr result (self.new ≡ self.old) }
    {
        self.spans.reserve(1)?;
        let from = self.bytes.len();
        self.bytes.extend_from_slice(item)?;
        let to = self.bytes.len();
        match self.spans.push(Span { from, to }) {
            Ok(()) => Ok(()),
            Err(_) => unreachable!(),
        }
    }

    /// The item at this place. None where there are no more.
    pub fn get(&self, at: usize) -> Option<&[u8]>
        ensures some { IfSome result (λ found. slice_get self.now at ≡ Some found.now) }
        ensures none { IfNone result (length self.now ≤ at) }
    {
        if at >= self.spans.len() {
            return None;
        }
        let span = self.spans[at];
        Some(&self.bytes[span.from..span.to])
    }
}
