//! Keys.

ghost use Rattle.std.specs.Prelude.{◌≡◌};

use gx_bytes::Bytes;

/// The first 900 bytes of a text or a byte string, and whether it has more.
#[derive(Debug, Drop)]
pub struct Part {
    pub bytes: Bytes,
    pub more: bool,
}

/// The least and the greatest value below an item; at a leaf both are the row's.
#[derive(Debug, Drop)]
pub enum ScalarKey {
    Int4 { lo: i32, hi: i32 },
    Int8 { lo: i64, hi: i64 },
    Date { lo: i32, hi: i32 },
    Uuid { lo: u128, hi: u128 },
    Cut { lo: Part, hi: Part },
}
