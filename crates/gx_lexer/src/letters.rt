//! Classes of bytes.

ghost use Rattle.std.specs.Prelude.{◌≡◌};
ghost use Rattle.gx_lexer.specs.Letters as letters;

pub fn is_white(byte: u8) -> bool
    ensures { result ≡ letters.is_white byte }
{
    byte == b' ' || byte == b'\t' || byte == b'\n' || byte == b'\r' || byte == 12
}

pub fn is_digit(byte: u8) -> bool
    ensures { result ≡ letters.is_digit byte }
{
    b'0' <= byte && byte <= b'9'
}

pub fn is_sign(byte: u8) -> bool
    ensures { result ≡ letters.is_sign byte }
{
    byte == b'+' || byte == b'-'
}

fn is_upper(byte: u8) -> bool
    ensures { result ≡ letters.is_upper byte }
{
    b'A' <= byte && byte <= b'Z'
}

fn is_lower(byte: u8) -> bool
    ensures { result ≡ letters.is_lower byte }
{
    b'a' <= byte && byte <= b'z'
}

pub fn is_letter(byte: u8) -> bool
    ensures { result ≡ letters.is_letter byte }
{
    is_upper(byte) || is_lower(byte) || byte == b'_'
}

pub fn is_word(byte: u8) -> bool
    ensures { result ≡ letters.is_word byte }
{
    is_letter(byte) || is_digit(byte)
}

/// The letter in lower case; another byte as it is.
pub fn folded(byte: u8) -> u8
    ensures { result ≡ letters.folded byte }
{
    if is_upper(byte) { byte + 32 } else { byte }
}

/// Whether the byte belongs to a comment that goes on: it is no line feed.
pub fn is_comment(byte: u8) -> bool
    ensures { result ≡ letters.is_comment byte }
{
    byte != b'\n'
}
