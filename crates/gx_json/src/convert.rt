//! From the values of `serde_json` to documents.

ghost use Rattle.std.specs.Prelude.{◌≡◌, ◌≢◌, ◌≤◌, ◌↔◌, true, IsTrue, IfOk, MatchResult};
ghost use Rattle.serde_json.specs.Data.{depth, items_depth, members_depth};
ghost use Rattle.serde_json.specs.View.{view, items_view, members_view};
ghost use Rattle.gx_json.specs.Tree.{data_of, items_data, members_data};
ghost use Rattle.gx_json.specs.Valid.{all_whole, items_whole, members_whole, has_zero, items_zero, members_zero, holds_zero, IsStored, AreStored};
ghost use Rattle.gx_json.specs.Steps.{AreMembers};
ghost use Rattle.gx_json.specs.Text.{PassesValue, IsValueFault};

use crate::document::{Json, JsonList, JsonPairs};
use gx_bytes::{Bytes, NoMemory, ValueError};
use serde_json::{Map, Value};
use std::alloc::Global;

/// How many arrays and objects may stand in one another.
const MOST_LEVELS: usize = 64;

/// The document that the value is. TooDeep where more than 64 arrays and objects stand in one another, else
/// OutOfRange where a number isn't an integer of 64 bits, else NoValue where a text or a key has U+0000.
pub(crate) fn document_of(alloc: Global, value: &Value) -> Result<Json, ValueError>
    ensures { MatchResult result (λ j. (data_of j ≡ view value.now) × PassesValue (view value.now) × IsStored (view value.now)) (λ e. e ≢ ValueError.Memory → IsValueFault (view value.now) e) }
{
    if !is_within(value, MOST_LEVELS) {
        return Err(ValueError::TooDeep);
    }
    if !all_whole(value) {
        return Err(ValueError::OutOfRange);
    }
    if has_zero(value) {
        return Err(ValueError::NoValue);
    }
    match convert(alloc, value) {
        Ok(json) => Ok(json),
        Err(_) => Err(ValueError::Memory),
    }
}

#[cycle(within)]
fn is_within(value: &Value, room: usize) -> bool
    ensures { IsTrue result ↔ (depth (view value.now) ≤ room) }
{
    match value {
        Value::Array(items) => room > 0 && items_within(items, room - 1),
        Value::Object(members) => room > 0 && members_within(members, room - 1),
        _ => true,
    }
}

#[cycle(within)]
fn items_within(items: &Vec<Value>, room: usize) -> bool
    ensures { IsTrue result ↔ (items_depth (items_view items.now.items) ≤ room) }
{
    for item in items {
        if !is_within(item, room) {
            return false;
        }
    }
    true
}

#[cycle(within)]
fn members_within(members: &Map<String, Value>, room: usize) -> bool
    ensures { IsTrue result ↔ (members_depth (members_view members.now.entries) ≤ room) }
{
    for (_, member) in members.iter() {
        if !is_within(member, room) {
            return false;
        }
    }
    true
}

#[cycle(whole)]
fn all_whole(value: &Value) -> bool
    ensures { result ≡ all_whole (view value.now) }
{
    match value {
        Value::Number(number) => number.is_i64(),
        Value::Array(items) => items_whole(items),
        Value::Object(members) => members_whole(members),
        _ => true,
    }
}

#[cycle(whole)]
fn items_whole(items: &Vec<Value>) -> bool
    ensures { result ≡ items_whole (items_view items.now.items) }
{
    for item in items {
        if !all_whole(item) {
            return false;
        }
    }
    true
}

#[cycle(whole)]
fn members_whole(members: &Map<String, Value>) -> bool
    ensures { result ≡ members_whole (members_view members.now.entries) }
{
    for (_, member) in members.iter() {
        if !all_whole(member) {
            return false;
        }
    }
    true
}

fn holds_zero(text: &str) -> bool
    ensures { result ≡ holds_zero text.now }
{
    text.as_bytes().iter().any(|byte| *byte == 0)
}

#[cycle(zero)]
fn has_zero(value: &Value) -> bool
    ensures { result ≡ has_zero (view value.now) }
{
    match value {
        Value::String(text) => holds_zero(text.as_str()),
        Value::Array(items) => items_zero(items),
        Value::Object(members) => members_zero(members),
        _ => false,
    }
}

#[cycle(zero)]
fn items_zero(items: &Vec<Value>) -> bool
    ensures { result ≡ items_zero (items_view items.now.items) }
{
    for item in items {
        if has_zero(item) {
            return true;
        }
    }
    false
}

#[cycle(zero)]
fn members_zero(members: &Map<String, Value>) -> bool
    ensures { result ≡ members_zero (members_view members.now.entries) }
{
    for (key, member) in members.iter() {
        if holds_zero(key.as_str()) || has_zero(member) {
            return true;
        }
    }
    false
}

#[cycle(convert)]
fn convert(alloc: Global, value: &Value) -> Result<Json, NoMemory>
    requires { all_whole (view value.now) ≡ true }
    ensures { IfOk result (λ j. (data_of j ≡ view value.now) × IsStored (data_of j)) }
{
    match value {
        Value::Null => Ok(Json::Null),
        Value::Bool(truth) => Ok(Json::Bool(*truth)),
        Value::Number(number) => match number.as_i64() {
            Some(number) => Ok(Json::Number(number)),
            None => Ok(Json::Null),
        },
        Value::String(text) => Ok(Json::Text(Bytes::from_slice(alloc, text.as_str().as_bytes())?)),
        Value::Array(items) => Ok(Json::List(JsonList {
            items: convert_items(alloc, items)?,
        })),
        Value::Object(members) => Ok(Json::Object(JsonPairs {
            items: convert_members(alloc, members)?,
        })),
    }
}

#[cycle(convert)]
fn convert_items(alloc: Global, items: &Vec<Value>) -> Result<Vec<Json>, NoMemory>
    requires { items_whole (items_view items.now.items) ≡ true }
    ensures { IfOk result (λ v. (items_data v.items ≡ items_view items.now.items) × AreStored (items_data v.items)) }
{
    let mut copies = Vec::new(alloc);
    for item in items {
        copies.push(convert(alloc, item)?)?;
    }
    Ok(copies)
}

#[cycle(convert)]
fn convert_members(
    alloc: Global,
    members: &Map<String, Value>,
) -> Result<Vec<(Bytes, Json)>, NoMemory>
    requires { members_whole (members_view members.now.entries) ≡ true }
    ensures { IfOk result (λ v. (members_data v.items ≡ members_view members.now.entries) × AreMembers (members_data v.items)) }
{
    let mut copies = Vec::new(alloc);
    for (key, member) in members.iter() {
        let name = Bytes::from_slice(alloc, key.as_str().as_bytes())?;
        copies.push((name, convert(alloc, member)?))?;
    }
    Ok(copies)
}
