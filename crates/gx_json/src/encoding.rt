//! The bytes of a document in a row: the text that `serde_json` writes, without spaces.

ghost use Rattle.std.specs.Prelude.{◌≡◌, ◌++◌, None, Some, Ok, option_map, MatchOption, MatchResult, IfOk, OnOk, IsUtf8};
ghost use Rattle.serde_json.specs.Data.{array, object};
ghost use Rattle.serde_json.specs.Read.{read};
ghost use Rattle.serde_json.specs.View.{view};
ghost use Rattle.serde_json.specs.Written.{compact_text};
ghost use Rattle.gx_json.specs.Tree.{data_of, items_data, members_data};
ghost use Rattle.gx_json.specs.Valid.{IsDocument};
ghost use Rattle.gx_json.specs.Text.{DecodesTo};

use crate::convert::document_of;
use crate::document::Json;
use crate::quoted::push_quoted;
use gx_bytes::{Bytes, NoMemory, ValueError, print_whole};
use serde_json::Value;
use std::alloc::{AllocError, Global};

impl Json {
    /// Appends the text without spaces, with the keys of each object in the order of their bytes.
    pub fn encode(&self, to: &mut Bytes) -> Result<(), NoMemory>
        ensures { OnOk result (to.new ≡ to.old ++ compact_text (data_of self.now)) }
    {
        encode_value(self, to)
    }

    /// The document whose bytes these are.
    pub fn decode(alloc: Global, bytes: &[u8]) -> Result<Option<Json>, NoMemory>
        ensures { MatchResult result (λ o. DecodesTo bytes.now (Ok (option_map data_of o))) (λ _. Unit {0}) }
    {
        let Some(value) = parsed_bytes(alloc, bytes)? else {
            return Ok(None);
        };
        let Some(json) = valid_document(alloc, &value)? else {
            return Ok(None);
        };
        let mut text = Bytes::new(alloc);
        json.encode(&mut text)?;
        if text.as_slice() == bytes {
            Ok(Some(json))
        } else {
            Ok(None)
        }
    }
}

fn parsed_bytes(alloc: Global, bytes: &[u8]) -> Result<Option<Value>, NoMemory>
    ensures { IfOk result (λ o. MatchOption o (IsUtf8 bytes.now → read bytes.now ≡ None) (λ v. read bytes.now ≡ Some (view v))) }
{
    match Value::from_slice(alloc, bytes) {
        Ok(value) => Ok(Some(value)),
        Err(fault) => {
            if fault.is_memory() {
                Err(AllocError)
            } else {
                Ok(None)
            }
        }
    }
}

/// The document that the value is, if it is a valid one.
fn valid_document(alloc: Global, value: &Value) -> Result<Option<Json>, NoMemory>
    ensures { IfOk result (λ o. MatchOption o (IsDocument (view value.now) → ⊥) (λ j. (data_of j ≡ view value.now) × IsDocument (data_of j))) }
{
    match document_of(alloc, value) {
        Ok(json) => Ok(Some(json)),
        Err(fault) => match fault {
            ValueError::Memory => Err(AllocError),
            _ => Ok(None),
        },
    }
}

#[cycle(encode)]
fn encode_value(value: &Json, to: &mut Bytes) -> Result<(), NoMemory>
    ensures { OnOk result (to.new ≡ to.old ++ compact_text (data_of value.now)) }
{
    match value {
        Json::Null => to.extend_from_slice(b"null")?,
        Json::Bool(true) => to.extend_from_slice(b"true")?,
        Json::Bool(false) => to.extend_from_slice(b"false")?,
        Json::Number(number) => print_whole(*number, to)?,
        Json::Text(text) => push_quoted(text.as_slice(), to)?,
        Json::List(list) => encode_items(&list.items, to)?,
        Json::Object(pairs) => encode_pairs(&pairs.items, to)?,
    }
    Ok(())
}

#[cycle(encode)]
fn encode_items(items: &[Json], to: &mut Bytes) -> Result<(), NoMemory>
    ensures { OnOk result (to.new ≡ to.old ++ compact_text (array (items_data items.now))) }
{
    to.push(b'[')?;
    let mut later = false;
    for item in items {
        if later {
            to.push(b',')?;
        }
        encode_value(item, to)?;
        later = true;
    }
    to.push(b']')?;
    Ok(())
}

#[cycle(encode)]
fn encode_pairs(pairs: &[(Bytes, Json)], to: &mut Bytes) -> Result<(), NoMemory>
    ensures { OnOk result (to.new ≡ to.old ++ compact_text (object (members_data pairs.now))) }
{
    to.push(b'{')?;
    let mut later = false;
    for pair in pairs {
        if later {
            to.push(b',')?;
        }
        push_quoted(pair.0.as_slice(), to)?;
        to.push(b':')?;
        encode_value(&pair.1, to)?;
        later = true;
    }
    to.push(b'}')?;
    Ok(())
}
