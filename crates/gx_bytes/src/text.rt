//! Bytes that are a text.

ghost use Rattle.std.specs.Prelude.{◌≡◌, IsUtf8};

use std::str;

/// The text whose bytes these are. They are UTF-8, so nothing is looked at.
pub fn text_of(bytes: &[u8]) -> &str
    requires { IsUtf8 bytes.now }
    ensures { result.now ≡ bytes.now }
{
    unsafe { str::from_utf8_unchecked(bytes) }
}
