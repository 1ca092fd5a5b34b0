//! The texts of scalars.

ghost use Rattle.std.specs.Prelude.{◌≡◌, ◌<◌, ◌++◌, OnOk};
ghost use Rattle.std.specs.Char.{digit_char};
ghost use Rattle.json.specs.Print.{escape_letter, escape_byte, escape, quoted};

use gx_bytes::{Bytes, NoMemory};

/// Appends the text in quotes. A quote and a backslash have a backslash before them, and so have the letters
/// for backspace, form feed, line feed, carriage return and tab; other bytes below a space are written as
/// `\u00` and two digits.
pub(crate) fn push_quoted(text: &[u8], to: &mut Bytes) -> Result<(), NoMemory>
    ensures { OnOk result (to.new ≡ to.old ++ quoted text.now) }
{
    to.push(b'"')?;
    push_escaped(text, to)?;
    to.push(b'"')?;
    Ok(())
}

fn push_escaped(text: &[u8], to: &mut Bytes) -> Result<(), NoMemory>
    ensures { OnOk result (to.new ≡ to.old ++ escape text.now) }
{
    for byte in text {
        push_byte(*byte, to)?;
    }
    Ok(())
}

fn push_byte(byte: u8, to: &mut Bytes) -> Result<(), NoMemory>
    ensures { OnOk result (to.new ≡ to.old ++ escape_byte byte) }
{
    let letter = escape_letter(byte);
    if letter > 0 {
        to.extend_from_slice(&[b'\\', letter])?;
    } else if byte < b' ' {
        to.extend_from_slice(&[
            b'\\',
            b'u',
            b'0',
            b'0',
            hex_digit(byte / 16),
            hex_digit(byte % 16),
        ])?;
    } else {
        to.push(byte)?;
    }
    Ok(())
}

/// What stands behind the backslash, or 0 where the byte is written in another way.
fn escape_letter(byte: u8) -> u8
    ensures { result ≡ escape_letter byte }
{
    match byte {
        b'"' | b'\\' => byte,
        0x08 => b'b',
        0x0c => b'f',
        b'\n' => b'n',
        b'\r' => b'r',
        b'\t' => b't',
        _ => 0,
    }
}

fn hex_digit(value: u8) -> u8
    requires { value < 16 }
    ensures { result ≡ digit_char value }
{
    if value < 10 {
        b'0' + value
    } else {
        b'a' + (value - 10)
    }
}
