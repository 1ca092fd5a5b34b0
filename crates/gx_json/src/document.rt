//! A document.

use gx_bytes::Bytes;

/// A value of JSON, whose numbers are whole.
/// Valid where each text and each key is UTF-8 without a byte 0, the keys of each object rise by their
/// bytes, and at most 64 arrays and objects stand in one another.
#[derive(Debug, Drop)]
#[cycle(json)]
pub enum Json {
    Null,
    Bool(bool),
    Number(i64),
    Text(Bytes),
    List(JsonList),
    Object(JsonPairs),
}

/// The elements of an array.
#[derive(Debug, Drop)]
#[cycle(json)]
pub struct JsonList {
    pub items: Vec<Json>,
}

/// The members of an object, by rising keys.
#[derive(Debug, Drop)]
#[cycle(json)]
pub struct JsonPairs {
    pub items: Vec<(Bytes, Json)>,
}
