//! The tokens of a statement.

use gx_bytes::Bytes;

/// What a statement is read as before its grammar is looked at.
#[derive(Debug, Drop)]
pub enum Token {
    /// A word in lower case.
    Word(Bytes),
    /// Digits, with a sign before them or without one.
    Number(Bytes),
    /// A text without the quotes round it, and with one quote for each two within.
    Text(Bytes),
    /// An operator as it is written, but `<>` for `!=`.
    Operator(Bytes),
    /// `(`
    Open,
    /// `)`
    Close,
    /// `[`
    OpenBracket,
    /// `]`
    CloseBracket,
    Comma,
    Star,
    /// `::`
    Cast,
    /// The rest of a piece, where no token can be formed.
    Unknown,
}
