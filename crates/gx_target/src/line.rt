//! The line of a row.

ghost use Rattle.std.specs.Prelude.{◌≡◌, ◌==◌, ◌≤◌, if◌then◌else◌, [], ◌∷◌, ◌++◌, length, take, drop, map, flat_map, option_map, MatchOption, OnOk, IsTrue};
ghost use Rattle.gx_model.specs.Database.{AreDistinct, Row};
ghost use Rattle.gx_model.specs.Replies.{escaped_byte, field_text, row_line};
ghost use Rattle.gx_value.specs.Values.{datum_of, row_of, IsField, IsRow};
ghost use Rattle.gx_target.specs.Lines.{fields_text};
ghost use Rattle.gx_target.specs.Places.{columns_at, HasPlaces};

use gx_bytes::{Bytes, NoMemory};
use gx_value::{Column, ColumnType, Value, print_value};

/// Appends the line of a row with these fields: the fields at these places, as COPY writes them, with tabs between them.
pub fn push_row_line(
    columns: &[Column],
    places: &[usize],
    fields: &[Option<Value>],
    to: &mut Bytes,
) -> Result<(), NoMemory>
    requires distinct { AreDistinct (map (λ c. c.name) columns.now) }
    requires places { HasPlaces columns.now places.now }
    requires fields { IsRow (map (λ c. c.kind) columns.now) (row_of fields.now) }
    ensures { (row : Row) → row.fields ≡ row_of fields.now → OnOk result (to.new ≡ to.old ++ row_line columns.now (columns_at columns.now places.now) row) }
{
    push_fields(columns, places, fields, to)?;
    to.push(b'\n')
}

/// Appends the fields at these places with tabs between them.
fn push_fields(
    columns: &[Column],
    places: &[usize],
    fields: &[Option<Value>],
    to: &mut Bytes,
) -> Result<(), NoMemory>
    requires distinct { AreDistinct (map (λ c. c.name) columns.now) }
    requires places { HasPlaces columns.now places.now }
    requires fields { IsRow (map (λ c. c.kind) columns.now) (row_of fields.now) }
    requires count { length fields.now ≡ length columns.now }
    ensures { OnOk result (to.new ≡ to.old ++ fields_text columns.now (columns_at columns.now places.now) (row_of fields.now)) }
{
    for (i, place) in places.iter().enumerate() {
        push_separator(i, to)?;
        push_field(columns[*place].kind, &fields[*place], to)?;
    }
    Ok(())
}

/// Appends the tab that stands before a field with so many before it.
fn push_separator(before: usize, to: &mut Bytes) -> Result<(), NoMemory>
    ensures { OnOk result (to.new ≡ to.old ++ (if before == 0 then [] else 9 ∷ [])) }
{
    if before == 0 { Ok(()) } else { to.push(b'\t') }
}

/// Appends a field as COPY writes it.
fn push_field(kind: ColumnType, field: &Option<Value>, to: &mut Bytes) -> Result<(), NoMemory>
    requires { IsField kind (option_map datum_of field.now) }
    ensures { OnOk result (to.new ≡ to.old ++ field_text kind (option_map datum_of field.now)) }
{
    match field {
        Some(value) => {
            let start = to.len();
            print_value(kind, value, to)?;
            escape_from(start, to)
        }
        None => to.extend_from_slice(b"\\N"),
    }
}

/// Writes the bytes from a place on with their escapes. Few texts have any, and the others stay where they are.
fn escape_from(start: usize, to: &mut Bytes) -> Result<(), NoMemory>
    requires { start ≤ length to.old }
    ensures { OnOk result (to.new ≡ take start to.old ++ flat_map escaped_byte (drop start to.old)) }
{
    let (_, text) = to.as_slice().split_at(start);
    if is_plain(text) {
        return Ok(());
    }
    let text = Bytes::from_slice(to.allocator(), text)?;
    to.truncate(start);
    push_escaped(text.as_slice(), to)
}

/// Whether no byte has an escape.
fn is_plain(text: &[u8]) -> bool
    ensures { IsTrue result → flat_map escaped_byte text.now ≡ text.now }
{
    for byte in text {
        if escape_letter(*byte).is_some() {
            return false;
        }
    }
    true
}

/// Appends bytes with their escapes.
fn push_escaped(text: &[u8], to: &mut Bytes) -> Result<(), NoMemory>
    ensures { OnOk result (to.new ≡ to.old ++ flat_map escaped_byte text.now) }
{
    for byte in text {
        push_byte(*byte, to)?;
    }
    Ok(())
}

/// Appends a byte, or its escape.
fn push_byte(byte: u8, to: &mut Bytes) -> Result<(), NoMemory>
    ensures { OnOk result (to.new ≡ to.old ++ escaped_byte byte) }
{
    match escape_letter(byte) {
        Some(letter) => to.extend_from_slice(&[b'\\', letter]),
        None => to.push(byte),
    }
}

/// What stands behind a backslash in place of a byte, if the byte has an escape.
fn escape_letter(byte: u8) -> Option<u8>
    ensures { MatchOption result (escaped_byte byte ≡ byte ∷ []) (λ letter. escaped_byte byte ≡ 92 ∷ letter ∷ []) }
{
    match byte {
        b'\\' => Some(b'\\'),
        8 => Some(b'b'),
        12 => Some(b'f'),
        b'\n' => Some(b'n'),
        b'\r' => Some(b'r'),
        b'\t' => Some(b't'),
        11 => Some(b'v'),
        _ => None,
    }
}
