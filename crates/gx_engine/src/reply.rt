//! What a piece is answered.

use gx_bytes::Bytes;

/// The answer to a piece.
#[derive(Debug, Drop)]
pub struct Reply {
    /// The lines, each with a line feed at its end. A piece without a statement has none.
    pub bytes: Bytes,
    /// The number of the fault, where the statement was refused.
    pub fault: Option<u8>,
}
