//! A literal of a statement.

use gx_intarr::Texts;

/// How a literal is written.
#[derive(Clone, Copy, Debug, PartialEq, Eq)]
pub enum Form {
    /// `NULL`.
    Null,
    /// A text in quotes.
    Text,
    /// A number.
    Number,
    /// `ARRAY[..]`.
    List,
}

/// A literal: no text for NULL, one for a text and for a number, and one for each element of a list.
#[derive(Debug, Drop)]
pub struct Literal {
    pub form: Form,
    pub texts: Texts,
}
