//! Hashes of the paths of documents.

ghost use Rattle.std.specs.Prelude.{◌≡◌, [], ◌∷◌, ◌++◌, map, IfOk, OnOk};
ghost use Rattle.std.specs.Fmt.{signed_decimal};
ghost use Rattle.gx_bytes.specs.Hash.{hash_from};
ghost use Rattle.gx_json.specs.Tree.{data_of, items_data, members_data};
ghost use Rattle.gx_gin_documents.specs.Paths.{key_step, document_paths, path_item};
ghost use Rattle.gx_gin_documents.specs.Steps.{hash_item, hash_items, hash_elements, hash_members};

use byteorder::{BigEndian, ByteOrder};
use gx_bytes::{Bytes, NoMemory, fnv, print_whole};
use gx_gin::Strings;
use gx_json::Json;
use std::alloc::Global;

/// Where a hash begins.
const SEED: u32 = 2_166_136_261;

/// The hashes of the paths of a document, as they come.
pub fn paths_of(alloc: Global, value: &Json) -> Result<Strings, NoMemory>
    ensures { IfOk result (λ made. made ≡ map path_item (document_paths (data_of value.now))) }
{
    let mut strings = Strings::new(alloc);
    push_paths(&mut strings, &mut Bytes::new(alloc), SEED, value)?;
    Ok(strings)
}

/// Adds the hashes of the paths of a value at the end. `above` is the hash of the steps above it; digits are built in `buffer`.
#[cycle(paths)]
fn push_paths(
    to: &mut Strings,
    buffer: &mut Bytes,
    above: u32,
    value: &Json,
) -> Result<(), NoMemory>
    ensures { OnOk result (to.new ≡ to.old ++ hash_items above (data_of value.now)) }
{
    match value {
        Json::Null => push_scalar(to, above, b'Z', &[])?,
        Json::Bool(true) => push_scalar(to, above, b'T', &[])?,
        Json::Bool(false) => push_scalar(to, above, b'F', &[])?,
        Json::Number(number) => push_number(to, buffer, above, *number)?,
        Json::Text(text) => push_scalar(to, above, b'S', text.as_slice())?,
        Json::List(list) => push_elements(to, buffer, above, &list.items)?,
        Json::Object(pairs) => push_members(to, buffer, above, &pairs.items)?,
    }
    Ok(())
}

#[cycle(paths)]
fn push_elements(
    to: &mut Strings,
    buffer: &mut Bytes,
    above: u32,
    elements: &[Json],
) -> Result<(), NoMemory>
    ensures { OnOk result (to.new ≡ to.old ++ hash_elements above (items_data elements.now)) }
{
    for element in elements {
        push_paths(to, buffer, above, element)?;
    }
    Ok(())
}

#[cycle(paths)]
fn push_members(
    to: &mut Strings,
    buffer: &mut Bytes,
    above: u32,
    members: &[(Bytes, Json)],
) -> Result<(), NoMemory>
    ensures { OnOk result (to.new ≡ to.old ++ hash_members above (members_data members.now)) }
{
    for member in members {
        let below = behind_key(above, member.0.as_slice());
        push_paths(to, buffer, below, &member.1)?;
    }
    Ok(())
}

/// The hash of steps and behind them that of a key.
fn behind_key(above: u32, key: &[u8]) -> u32
    ensures { result ≡ hash_from above (key_step key.now) }
{
    fnv(fnv(fnv(above, b"K"), key), b"\0")
}

/// Adds the hash of the path of a scalar, a byte and a text, at the end.
fn push_scalar(to: &mut Strings, above: u32, byte: u8, text: &[u8]) -> Result<(), NoMemory>
    ensures { OnOk result (to.new ≡ to.old ++ hash_item above (byte ∷ text.now) ∷ []) }
{
    let mut item = [0; 4];
    BigEndian::write_u32(&mut item, fnv(fnv(above, &[byte]), text));
    to.push(item.as_slice())
}

/// Adds the hash of the path of a number at the end.
fn push_number(
    to: &mut Strings,
    buffer: &mut Bytes,
    above: u32,
    number: i64,
) -> Result<(), NoMemory>
    ensures { OnOk result (to.new ≡ to.old ++ hash_item above (78 ∷ signed_decimal number) ∷ []) }
{
    buffer.truncate(0);
    print_whole(number, buffer)?;
    push_scalar(to, above, b'N', buffer.as_slice())
}
