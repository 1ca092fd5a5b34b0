//! Items of documents.

ghost use Rattle.std.specs.Prelude.{◌≡◌, [], ◌∷◌, ◌++◌, map, IfOk, OnOk};
ghost use Rattle.std.specs.Fmt.{signed_decimal};
ghost use Rattle.gx_json.specs.Tree.{data_of, items_data, members_data};
ghost use Rattle.gx_gin_items.specs.Items.{shortened};
ghost use Rattle.gx_gin_documents.specs.Items.{key_item, document_items};
ghost use Rattle.gx_gin_documents.specs.Steps.{short_items, short_elements, short_members};

use gx_bytes::{Bytes, NoMemory, print_whole};
use gx_gin::Strings;
use gx_gin_items::push_short;
use gx_json::Json;
use std::alloc::Global;

/// The items of a document, as they come.
pub fn items_of(alloc: Global, value: &Json) -> Result<Strings, NoMemory>
    ensures { IfOk result (λ made. made ≡ map shortened (document_items (data_of value.now))) }
{
    let mut strings = Strings::new(alloc);
    push_items(&mut strings, &mut Bytes::new(alloc), b'K', value)?;
    Ok(strings)
}

/// The items of these keys, as they come.
pub fn key_items_of(alloc: Global, keys: &[Bytes]) -> Result<Strings, NoMemory>
    ensures { IfOk result (λ made. made ≡ map shortened (map key_item keys.now)) }
{
    let mut strings = Strings::new(alloc);
    let mut buffer = Bytes::new(alloc);
    for key in keys {
        push_item(&mut strings, &mut buffer, b'K', key.as_slice())?;
    }
    Ok(strings)
}

/// The item of one key.
pub fn key_item_of(alloc: Global, key: &[u8]) -> Result<Strings, NoMemory>
    ensures { IfOk result (λ made. made ≡ map shortened (map key_item (key.now ∷ []))) }
{
    let mut strings = Strings::new(alloc);
    push_item(&mut strings, &mut Bytes::new(alloc), b'K', key)?;
    Ok(strings)
}

/// Adds the items of a value at the end. Each is built in `buffer`; that of a string begins with `byte`.
#[cycle(items)]
fn push_items(to: &mut Strings, buffer: &mut Bytes, byte: u8, value: &Json) -> Result<(), NoMemory>
    ensures { OnOk result (to.new ≡ to.old ++ short_items byte (data_of value.now)) }
{
    match value {
        Json::Null => push_item(to, buffer, b'Z', &[])?,
        Json::Bool(true) => push_item(to, buffer, b'T', &[])?,
        Json::Bool(false) => push_item(to, buffer, b'F', &[])?,
        Json::Number(number) => push_number(to, buffer, *number)?,
        Json::Text(text) => push_item(to, buffer, byte, text.as_slice())?,
        Json::List(list) => push_elements(to, buffer, &list.items)?,
        Json::Object(pairs) => push_members(to, buffer, &pairs.items)?,
    }
    Ok(())
}

#[cycle(items)]
fn push_elements(to: &mut Strings, buffer: &mut Bytes, elements: &[Json]) -> Result<(), NoMemory>
    ensures { OnOk result (to.new ≡ to.old ++ short_elements (items_data elements.now)) }
{
    for element in elements {
        push_items(to, buffer, b'K', element)?;
    }
    Ok(())
}

#[cycle(items)]
fn push_members(
    to: &mut Strings,
    buffer: &mut Bytes,
    members: &[(Bytes, Json)],
) -> Result<(), NoMemory>
    ensures { OnOk result (to.new ≡ to.old ++ short_members (members_data members.now)) }
{
    for member in members {
        push_item(to, buffer, b'K', member.0.as_slice())?;
        push_items(to, buffer, b'S', &member.1)?;
    }
    Ok(())
}

/// Adds the item of a byte and a text at the end.
fn push_item(to: &mut Strings, buffer: &mut Bytes, byte: u8, text: &[u8]) -> Result<(), NoMemory>
    ensures { OnOk result (to.new ≡ to.old ++ shortened (byte ∷ text.now) ∷ []) }
{
    buffer.truncate(0);
    buffer.push(byte)?;
    buffer.extend_from_slice(text)?;
    push_short(to, buffer.as_slice())
}

/// Adds the item of a number at the end.
fn push_number(to: &mut Strings, buffer: &mut Bytes, number: i64) -> Result<(), NoMemory>
    ensures { OnOk result (to.new ≡ to.old ++ shortened (78 ∷ signed_decimal number) ∷ []) }
{
    buffer.truncate(0);
    buffer.push(b'N')?;
    print_whole(number, buffer)?;
    push_short(to, buffer.as_slice())
}
