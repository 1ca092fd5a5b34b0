//! The cutter: from the bytes of a script, as they come, to its pieces.

ghost use Rattle.std.specs.Prelude.{◌≡◌, ◌≤◌, ℕ, Bool, true, false, List, [], ◌∷◌, ◌++◌, length, take, fold, Option, Some, None, OnOk, OnErr, IfOk};
ghost use Rattle.gx_lexer.specs.declared.piece.Piece.{Piece};
ghost use Rattle.gx_lexer.specs.Cut as cut;
ghost use Rattle.gx_lexer.specs.Feeding.{Standing, CutsOn, Fed, Feeds, last_of, mark, longer_by};

use crate::piece::{LONGEST, Piece, Pieces};
use gx_bytes::{Bytes, NoMemory};
use std::alloc::Global;
use std::marker::Model;

/// What the byte before the next one leaves open.
#[derive(Clone, Copy, Debug, PartialEq, Eq, Drop)]
pub enum Mode {
    Plain,
    /// A `-` that may be the first of a comment.
    Dash,
    /// A text whose closing quote is still to come.
    Text,
    Comment,
}

/// Cuts a script at each `;` that stands in no text and no comment. It is fed the script in chunks of any size.
#[derive(Debug, Drop)]
pub struct Cutter {
    alloc: Global,
    mode: Mode,
    /// The bytes since the last `;`, while they aren't too many.
    kept: Option<Bytes>,
    spoiled: bool,
}

impl Model for Cutter {
    ghost Value = { Standing };

    ghost view = { λ c. record { mode = c.mode; kept = c.kept; spoiled = c.spoiled } };
}

impl Cutter {
    /// A cutter that was fed nothing.
    pub fn new(alloc: Global) -> Cutter
        ensures fed { Fed result [] }
        ensures spoiled { result.spoiled ≡ false }
    {
        Cutter {
            alloc,
            mode: Mode::Plain,
            kept: Some(Bytes::new(alloc)),
            spoiled: false,
        }
    }

    /// Appends the pieces that end in this chunk. Each byte is looked at once, and the bytes of a piece are kept at once.
    pub fn feed(&mut self, chunk: &[u8], to: &mut Pieces) -> Result<(), NoMemory>
        requires { self.old.spoiled ≡ false }
        ensures cuts { OnOk result ((script : List ℕ) → Fed self.old script → CutsOn self.new script chunk.now to.old to.new) }
        ensures ok { OnOk result (self.new.spoiled ≡ false) }
        ensures err { OnErr result (self.new.spoiled ≡ true) }
    {
        match self.take(chunk, to) {
            Ok(()) => Ok(()),
            Err(error) => {
                self.spoiled = true;
                Err(error)
            }
        }
    }

    /// Appends what stands behind the last `;`.
    pub fn finish(self, to: &mut Pieces) -> Result<(), NoMemory>
        requires { self.spoiled ≡ false }
        ensures { OnOk result ((script : List ℕ) → Fed self script → to.new ≡ to.old ++ last_of script ∷ []) }
    {
        to.push(piece(self.kept))
    }

    /// Whether an earlier call of `feed` found no memory.
    pub fn spoiled(&self) -> bool
        ensures { result ≡ self.now.spoiled }
    {
        self.spoiled
    }

    fn take(&mut self, chunk: &[u8], to: &mut Pieces) -> Result<(), NoMemory>
        requires { self.old.spoiled ≡ false }
        ensures { OnOk result (Feeds self.old self.new chunk.now to.old to.new) }
    {
        let mut rest = chunk;
        'ends: loop {
            let (n, mode) = self.front(rest);
            let size = rest.len();
            if n == size {
                return self.keep(rest, mode);
            }
            self.end(&rest[..n], to)?;
            rest = &rest[n + 1..];
        }
    }

    /// How many bytes stand before the first that ends a piece, and what they leave open.
    fn front(&self, bytes: &[u8]) -> (usize, Mode)
        ensures len { result.0 ≡ cut.front_len self.now.mode bytes.now }
        ensures within { result.0 ≤ length bytes.now }
        ensures mode { result.1 ≡ fold cut.mode_after self.now.mode (take result.0 bytes.now) }
    {
        front(self.mode, bytes)
    }

    /// Keeps bytes of which none ends a piece, and which leave this open.
    fn keep(&mut self, more: &[u8], mode: Mode) -> Result<(), NoMemory>
        ensures { OnOk result (self.new ≡ record { mode = mode; kept = longer_by self.old.kept more.now; spoiled = self.old.spoiled }) }
    {
        self.kept = longer(self.kept.take(), more)?;
        self.mode = mode;
        Ok(())
    }

    /// Ends a piece behind these bytes.
    fn end(&mut self, more: &[u8], to: &mut Pieces) -> Result<(), NoMemory>
        ensures stands { OnOk result (self.new ≡ record { mode = Mode.Plain; kept = Some []; spoiled = self.old.spoiled }) }
        ensures pieces { OnOk result (to.new ≡ to.old ++ mark (longer_by self.old.kept more.now) ∷ []) }
    {
        let kept = longer(self.kept.take(), more)?;
        to.push(piece(kept))?;
        self.kept = Some(Bytes::new(self.alloc));
        self.mode = Mode::Plain;
        Ok(())
    }
}

/// How many bytes stand before the first that ends a piece, and what they leave open.
fn front(mode: Mode, bytes: &[u8]) -> (usize, Mode)
    ensures len { result.0 ≡ cut.front_len mode bytes.now }
    ensures within { result.0 ≤ length bytes.now }
    ensures mode { result.1 ≡ fold cut.mode_after mode (take result.0 bytes.now) }
{
    let mut open = mode;
    for (i, byte) in bytes.iter().enumerate() {
        if ends(open, *byte) {
            return (i, open);
        }
        open = mode_after(open, *byte);
    }
    (bytes.len(), open)
}

/// Whether the byte ends the piece.
fn ends(mode: Mode, byte: u8) -> bool
    ensures { result ≡ cut.ends mode byte }
{
    match mode {
        Mode::Plain | Mode::Dash => byte == b';',
        Mode::Text | Mode::Comment => false,
    }
}

fn mode_after(mode: Mode, byte: u8) -> Mode
    ensures { result ≡ cut.mode_after mode byte }
{
    match mode {
        Mode::Plain => begun(byte, Mode::Dash),
        Mode::Dash => begun(byte, Mode::Comment),
        Mode::Text => if byte == b'\'' {
            Mode::Plain
        } else {
            Mode::Text
        },
        Mode::Comment => if byte == b'\n' {
            Mode::Plain
        } else {
            Mode::Comment
        },
    }
}

/// What begins at a byte outside texts and comments, where a `-` begins `dash`.
fn begun(byte: u8, dash: Mode) -> Mode
    ensures { result ≡ cut.begun byte dash }
{
    if byte == b'\'' {
        Mode::Text
    } else if byte == b'-' {
        dash
    } else {
        Mode::Plain
    }
}

/// More bytes, while they aren't too many.
fn longer(kept: Option<Bytes>, more: &[u8]) -> Result<Option<Bytes>, NoMemory>
    ensures { IfOk result (λ longer. longer ≡ longer_by kept more.now) }
{
    match kept {
        Some(mut bytes) => {
            if more.len() <= LONGEST && bytes.len() <= LONGEST - more.len() {
                bytes.extend_from_slice(more)?;
                Ok(Some(bytes))
            } else {
                Ok(None)
            }
        }
        None => Ok(None),
    }
}

fn piece(kept: Option<Bytes>) -> Piece
    ensures { result ≡ mark kept }
{
    match kept {
        Some(bytes) => Piece::Text(bytes),
        None => Piece::TooLong,
    }
}
