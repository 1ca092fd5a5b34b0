//! The pieces of a script.

ghost use Rattle.std.specs.Prelude.{◌≡◌, ℕ, List, [], ◌∷◌, ◌++◌, length, OnOk, OnErr};
ghost use Rattle.gx_lexer.specs.declared.piece.Piece.{Piece};

use gx_bytes::{Bytes, NoMemory};
use std::alloc::Global;
use std::marker::Model;

/// The greatest length of a piece in bytes.
pub const LONGEST: usize = 1_048_576;

/// A piece of a script, without the `;` that ends it.
#[derive(Debug, Drop)]
pub enum Piece {
    Text(Bytes),
    /// A piece above the greatest length, whose bytes weren't kept.
    TooLong,
}

/// Pieces in the order of the script.
#[derive(Debug, Drop)]
pub struct Pieces {
    items: Vec<Piece>,
}

impl Model for Pieces {
    ghost Value = { List Piece };

    ghost view = { λ p. p.items.items };
}

impl Pieces {
    pub fn new(alloc: Global) -> Pieces
        ensures { result ≡ [] }
    {
        Pieces {
            items: Vec::new(alloc),
        }
    }

    /// Adds a piece at the end.
    pub fn push(&mut self, piece: Piece) -> Result<(), NoMemory>
        ensures ok { OnOk result (self.new ≡ self.old ++ piece ∷ []) }
        ensures err { OnErr result (self.new ≡ self.old) }
    {
        self.items.push(piece)?;
        Ok(())
    }

    pub fn as_slice(&self) -> &[Piece]
        ensures { result.now ≡ self.now }
    {
        self.items.as_slice()
    }

    /// Forgets all pieces and keeps their room.
    pub fn clear(&mut self)
        ensures { self.new ≡ [] }
    {
        self.items.clear();
    }
}
