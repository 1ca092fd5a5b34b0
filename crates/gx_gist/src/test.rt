//! What a test of a key says of the rows below it.

/// The answer of a test of a key.
#[derive(Clone, Copy, Debug, PartialEq, Eq)]
pub enum Test {
    /// The query holds of no value below the key.
    No,
    /// It may hold: the value has to be looked at.
    Maybe,
    /// It holds. Only a leaf key says so for sure.
    Yes,
}
