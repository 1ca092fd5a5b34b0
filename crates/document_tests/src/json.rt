//! Worked documents, boundary values, and each call once.

use crate::hstore::keys_of;
use gx_bytes::{Bytes, NoMemory, ValueError};
use gx_json::Json;
use std::alloc::Global;
use std::test::Fail;

/// So many openings, the text, and as many closings.
pub fn nested(
    alloc: Global,
    count: usize,
    opening: &str,
    inner: &str,
    closing: &str,
) -> Result<String, NoMemory> {
    let mut text = String::new(alloc);
    for _ in 0..count {
        text.push_str(opening)?;
    }
    text.push_str(inner)?;
    for _ in 0..count {
        text.push_str(closing)?;
    }
    Ok(text)
}

/// The printed text of a copy of the document, and the bytes.
fn written(alloc: Global, json: &Json) -> Result<(Bytes, Bytes), NoMemory> {
    let mut text = Bytes::new(alloc);
    json.copy(alloc)?.print(&mut text)?;
    let mut bytes = Bytes::new(alloc);
    json.encode(&mut bytes)?;
    Ok((text, bytes))
}

/// The printed text of the document of a text, and its bytes.
fn read(alloc: Global, text: &str) -> Result<(Bytes, Bytes), ValueError> {
    let json = Json::read(alloc, text)?;
    match written(alloc, &json) {
        Ok(written) => Ok(written),
        Err(_) => Err(ValueError::Memory),
    }
}

/// The printed text of the document of these bytes, and its bytes.
fn decoded(alloc: Global, bytes: &[u8]) -> Result<Option<(Bytes, Bytes)>, NoMemory> {
    match Json::decode(alloc, bytes)? {
        Some(json) => Ok(Some(written(alloc, &json)?)),
        None => Ok(None),
    }
}

fn is_read_so(alloc: Global, text: &str, want: &str, want_bytes: &[u8]) -> bool {
    match read(alloc, text) {
        Ok((text, bytes)) => text.as_slice() == want.as_bytes() && bytes.as_slice() == want_bytes,
        Err(_) => false,
    }
}

fn is_decoded_so(alloc: Global, want: &str, want_bytes: &[u8]) -> bool {
    match decoded(alloc, want_bytes) {
        Ok(Some((text, bytes))) => {
            text.as_slice() == want.as_bytes() && bytes.as_slice() == want_bytes
        }
        _ => false,
    }
}

/// Whether the document of the text has this printed text and these bytes, and both are read as the same document again.
fn is_written_so(alloc: Global, text: &str, want: &str, want_bytes: &str) -> bool {
    is_read_so(alloc, text, want, want_bytes.as_bytes())
        && is_read_so(alloc, want, want, want_bytes.as_bytes())
        && is_decoded_so(alloc, want, want_bytes.as_bytes())
}

/// A text, the printed text, and the bytes.
const WRITTEN: [(&'static str, &'static str, &'static str); 33] = [
    // scalars
    ("null", "null", "null"),
    (" true\n", "true", "true"),
    ("false", "false", "false"),
    ("0", "0", "0"),
    (
        "9223372036854775807",
        "9223372036854775807",
        "9223372036854775807",
    ),
    (
        "-9223372036854775808",
        "-9223372036854775808",
        "-9223372036854775808",
    ),
    // strings
    (
        "\"9223372036854775808\"",
        "\"9223372036854775808\"",
        "\"9223372036854775808\"",
    ),
    ("\"\"", "\"\"", "\"\""),
    ("\"foo\"", "\"foo\"", "\"foo\""),
    ("\"\\u0041\\/\\u00e9\"", "\"A/é\"", "\"A/é\""),
    (
        "\"\\\"\\\\\\b\\f\\n\\r\\t\"",
        "\"\\\"\\\\\\b\\f\\n\\r\\t\"",
        "\"\\\"\\\\\\b\\f\\n\\r\\t\"",
    ),
    (
        "\"\\u0001\\u001F\\u007f\"",
        "\"\\u0001\\u001f\x7f\"",
        "\"\\u0001\\u001f\x7f\"",
    ),
    ("\"\\ud83d\\ude00\"", "\"😀\"", "\"😀\""),
    (
        "\"[[{{1.5 01 \\\\\"",
        "\"[[{{1.5 01 \\\\\"",
        "\"[[{{1.5 01 \\\\\"",
    ),
    // arrays and objects
    ("[]", "[]", "[]"),
    ("{ }", "{}", "{}"),
    (
        " [ 1 ,\t\"x\",\ntrue ] ",
        "[1, \"x\", true]",
        "[1,\"x\",true]",
    ),
    ("[1,2,[1,3]]", "[1, 2, [1, 3]]", "[1,2,[1,3]]"),
    ("{\"a\":{}}", "{\"a\": {}}", "{\"a\":{}}"),
    (
        "{\"a\":{\"b\":1}}",
        "{\"a\": {\"b\": 1}}",
        "{\"a\":{\"b\":1}}",
    ),
    (
        "{\"x\":{\"k\":1}}",
        "{\"x\": {\"k\": 1}}",
        "{\"x\":{\"k\":1}}",
    ),
    (
        "{\"id\":7,\"note\":\"x\"}",
        "{\"id\": 7, \"note\": \"x\"}",
        "{\"id\":7,\"note\":\"x\"}",
    ),
    (
        "{\"id\":7,\"tags\":[\"t7\"]}",
        "{\"id\": 7, \"tags\": [\"t7\"]}",
        "{\"id\":7,\"tags\":[\"t7\"]}",
    ),
    ("[\"foo\"]", "[\"foo\"]", "[\"foo\"]"),
    ("{\"k\":2}", "{\"k\": 2}", "{\"k\":2}"),
    ("[\"k\"]", "[\"k\"]", "[\"k\"]"),
    // orders of keys, and equal keys
    (
        "{\"bb\":1,\"a\":2,\"B\":3,\"\":4}",
        "{\"\": 4, \"B\": 3, \"a\": 2, \"bb\": 1}",
        "{\"\":4,\"B\":3,\"a\":2,\"bb\":1}",
    ),
    (
        "{\"abc\":1,\"z\":[{\"bb\":0,\"c\":1}],\"b\":2}",
        "{\"b\": 2, \"z\": [{\"c\": 1, \"bb\": 0}], \"abc\": 1}",
        "{\"abc\":1,\"b\":2,\"z\":[{\"bb\":0,\"c\":1}]}",
    ),
    (
        "{\"é\":1,\"zzz\":2,\"z\":3}",
        "{\"z\": 3, \"é\": 1, \"zzz\": 2}",
        "{\"z\":3,\"zzz\":2,\"é\":1}",
    ),
    ("{\"a\":1,\"a\":2}", "{\"a\": 2}", "{\"a\":2}"),
    (
        "[{\"a\":1,\"b\":{\"c\":1,\"c\":2},\"a\":3}]",
        "[{\"a\": 3, \"b\": {\"c\": 2}}]",
        "[{\"a\":3,\"b\":{\"c\":2}}]",
    ),
    (
        "{\"a\":1,\"a\":[2],\"b\":{ }}",
        "{\"a\": [2], \"b\": {}}",
        "{\"a\":[2],\"b\":{}}",
    ),
    ("{\"a\":\"\\u0000\",\"a\":1}", "{\"a\": 1}", "{\"a\":1}"),
];

#[test]
fn documents_are_written(rt: HostRuntime) {
    for (text, want, bytes) in &WRITTEN {
        assert!(rt; is_written_so(rt.alloc(), text, want, bytes), "at {text}");
    }
}

/// The letters from the last.
const LETTERS: [&'static str; 26] = [
    "z", "y", "x", "w", "v", "u", "t", "s", "r", "q", "p", "o", "n", "m", "l", "k", "j", "i", "h",
    "g", "f", "e", "d", "c", "b", "a",
];

/// An object with keys whose order by bytes is the reverse of that by length, as it is printed.
fn many_keys(alloc: Global) -> Result<String, NoMemory> {
    let mut text = String::new(alloc);
    let mut before = "{";
    for (at, letter) in LETTERS.iter().enumerate() {
        let key = nested(alloc, at + 1, letter, "", "")?;
        text.push_str(format!(in alloc; "{before}\"{key}\": {at}")?.as_str())?;
        before = ", ";
    }
    text.push('}')?;
    Ok(text)
}

fn is_printed_so(alloc: Global, text: &str, want: &str) -> bool {
    match read(alloc, text) {
        Ok((text, _)) => text.as_slice() == want.as_bytes(),
        Err(_) => false,
    }
}

/// A document of 6,000 bytes as it is printed, and as bytes.
fn long_document(alloc: Global) -> Result<(String, String), NoMemory> {
    let letters = nested(alloc, 5979, "x", "", "")?;
    let printed = format!(in alloc; "{{\"id\": 7, \"note\": \"{letters}\"}}")?;
    let bytes = format!(in alloc; "{{\"id\":7,\"note\":\"{letters}\"}}")?;
    Ok((printed, bytes))
}

#[test]
fn large_documents(rt: HostRuntime) -> Result<(), Fail> {
    let alloc = rt.alloc();
    let keys = many_keys(alloc)?;
    assert!(rt; is_printed_so(alloc, keys.as_str(), keys.as_str()));
    let (want, bytes) = long_document(alloc)?;
    assert!(rt; want.len() == 6000);
    assert!(rt; is_written_so(alloc, bytes.as_str(), want.as_str(), bytes.as_str()));
    assert!(rt; contains(alloc, bytes.as_str(), "{\"id\":7}") == Ok(true));
    assert!(rt; contains(alloc, bytes.as_str(), want.as_str()) == Ok(true));
    assert!(rt; contains(alloc, bytes.as_str(), "{\"id\":8}") == Ok(false));
    assert!(rt; has_key(alloc, bytes.as_str(), "note") == Ok(true));
    Ok(())
}

/// A text, and why it is no document: of all kinds, of strings, of numbers.
const REFUSED: [(&'static str, ValueError); 41] = [
    ("", ValueError::NoValue),
    (" ", ValueError::NoValue),
    ("[1,]", ValueError::NoValue),
    ("{\"a\"}", ValueError::NoValue),
    ("{\"a\":1,}", ValueError::NoValue),
    ("{a:1}", ValueError::NoValue),
    ("[1] 2", ValueError::NoValue),
    ("True", ValueError::NoValue),
    ("nul", ValueError::NoValue),
    ("]", ValueError::NoValue),
    ("[1}", ValueError::NoValue),
    ("\x0b1", ValueError::NoValue),
    ("\x0c1", ValueError::NoValue),
    // strings
    ("\"\\u0000\"", ValueError::NoValue),
    ("{\"\\u0000\":1}", ValueError::NoValue),
    ("\"\n\"", ValueError::NoValue),
    ("\"a", ValueError::NoValue),
    ("\"\\x\"", ValueError::NoValue),
    ("\"\\ud83d\"", ValueError::NoValue),
    ("\"\\ude00\"", ValueError::NoValue),
    ("\"\\ud83d\\u0041\"", ValueError::NoValue),
    ("'x'", ValueError::NoValue),
    // numbers
    ("9223372036854775808", ValueError::OutOfRange),
    ("-9223372036854775809", ValueError::OutOfRange),
    ("18446744073709551616", ValueError::OutOfRange),
    ("1.5", ValueError::NoValue),
    ("1e3", ValueError::NoValue),
    ("01", ValueError::NoValue),
    ("-", ValueError::NoValue),
    ("-01", ValueError::NoValue),
    ("+1", ValueError::NoValue),
    ("+9223372036854775808", ValueError::OutOfRange),
    ("e9223372036854775808", ValueError::OutOfRange),
    ("-0", ValueError::NoValue),
    ("[9223372036854775808", ValueError::OutOfRange),
    ("[x,9223372036854775808]", ValueError::OutOfRange),
    ("[01,9223372036854775808]", ValueError::NoValue),
    ("[9223372036854775808,01]", ValueError::OutOfRange),
    (
        "{\"a\":9223372036854775808,\"a\":1}",
        ValueError::OutOfRange,
    ),
    ("[\"\\\"01\", 9223372036854775808]", ValueError::OutOfRange),
    ("[\"\\\\\"01, 9223372036854775808]", ValueError::NoValue),
];

#[test]
fn texts_that_are_refused(rt: HostRuntime) {
    for (text, want) in &REFUSED {
        assert!(rt;
            Json::read(rt.alloc(), text).err() == Some(*want),
            "at {text}"
        );
    }
}

/// How many openings stand before a text, and closings behind it, and why the whole is refused.
const LEVELS: [(
    usize,
    &'static str,
    &'static str,
    &'static str,
    Option<ValueError>,
); 9] = [
    (64, "[", "", "]", None),
    (65, "[", "", "]", Some(ValueError::TooDeep)),
    (64, "{\"a\":", "1", "}", None),
    (65, "{\"a\":", "1", "}", Some(ValueError::TooDeep)),
    (64, "[", "", "", Some(ValueError::NoValue)),
    (65, "[", "01", "", Some(ValueError::TooDeep)),
    (66, "\"[\",", "01", "", Some(ValueError::NoValue)),
    (65, "[],", "", "", Some(ValueError::NoValue)),
    (65, "]", "", "", Some(ValueError::NoValue)),
];

/// Why so many openings, the text and as many closings are refused.
fn fault_of(
    alloc: Global,
    count: usize,
    opening: &str,
    inner: &str,
    closing: &str,
) -> Option<ValueError> {
    match nested(alloc, count, opening, inner, closing) {
        Ok(text) => Json::read(alloc, text.as_str()).err(),
        Err(_) => Some(ValueError::Memory),
    }
}

#[test]
fn sixty_four_levels(rt: HostRuntime) -> Result<(), Fail> {
    for (count, opening, inner, closing, want) in &LEVELS {
        assert!(rt;
            fault_of(rt.alloc(), *count, opening, inner, closing) == *want,
            "{count} times {opening}"
        );
    }
    let full = nested(rt.alloc(), 64, "[", "", "]")?;
    assert!(rt; is_written_so(rt.alloc(), full.as_str(), full.as_str(), full.as_str()));
    let deep = nested(rt.alloc(), 65, "[", "", "]")?;
    assert!(rt; decoded(rt.alloc(), deep.as_bytes())?.is_none());
    Ok(())
}

/// Bytes of no document.
const NO_BYTES: [&'static [u8]; 11] = [
    b"",
    b"[1, 2]",
    b"{\"b\":1,\"a\":2}",
    b"{\"a\":1,\"a\":1}",
    b"1.5",
    b"-0",
    b"9223372036854775808",
    b"\"\\u0041\"",
    b"\"\\u0000\"",
    b"\"\xff\"",
    b"nul",
];

#[test]
fn bytes_of_no_document(rt: HostRuntime) -> Result<(), Fail> {
    for bytes in &NO_BYTES {
        assert!(rt; decoded(rt.alloc(), bytes)?.is_none(), "at {bytes:?}");
    }
    Ok(())
}

/// A document, a key, and whether it stands at the top.
const TOP: [(&'static str, &'static str, bool); 14] = [
    ("{\"x\":{\"k\":1}}", "k", false),
    ("{\"id\":7,\"tags\":[\"t7\"]}", "tags", true),
    ("{\"id\":7,\"tags\":[\"t7\"]}", "t7", false),
    ("{\"x\":{\"k\":1}}", "x", true),
    ("{\"k\":2}", "k", true),
    ("[\"k\"]", "k", true),
    ("[[\"k\"]]", "k", false),
    ("[{\"k\":1}]", "k", false),
    ("\"k\"", "k", true),
    ("\"kk\"", "k", false),
    ("{\"a\":\"k\"}", "k", false),
    ("[1,null]", "1", false),
    ("1", "1", false),
    ("{\"\":1}", "", true),
];

fn has_key(alloc: Global, text: &str, key: &str) -> Result<bool, ValueError> {
    Ok(Json::read(alloc, text)?.has_key(key.as_bytes()))
}

/// A document, keys, and whether it has all of them and some.
const SOME_KEYS: [(&'static str, &'static [&'static str], bool, bool); 8] = [
    (r#"{"a":1,"b":2,"d":3}"#, &["a", "b"], true, true),
    (r#"{"a":1,"b":2,"d":3}"#, &["d", "c"], false, true),
    (r#"{"a":1,"b":2,"d":3}"#, &["c", "e", ""], false, false),
    (r#"{"a":1,"b":2,"d":3}"#, &[], true, false),
    (r#"["x","y",["z"],1]"#, &["y", "x"], true, true),
    (r#"["x","y",["z"],1]"#, &["z", "1"], false, false),
    (r#""x""#, &["x"], true, true),
    ("1", &["1"], false, false),
];

/// Whether the document of the text has all of the keys, and some.
fn keys_held(alloc: Global, text: &str, words: &[&str]) -> Result<(bool, bool), ValueError> {
    let json = Json::read(alloc, text)?;
    match keys_of(alloc, words) {
        Ok(keys) => Ok((json.has_all(&keys), json.has_any(&keys))),
        Err(_) => Err(ValueError::Memory),
    }
}

#[test]
fn keys_and_texts_at_the_top(rt: HostRuntime) {
    for (text, key, want) in &TOP {
        assert!(rt;
            has_key(rt.alloc(), text, key) == Ok(*want),
            "{key} in {text}"
        );
    }
    for (text, words, all, some) in &SOME_KEYS {
        assert!(rt;
            keys_held(rt.alloc(), text, words) == Ok((*all, *some)),
            "{words:?} in {text}"
        );
    }
}

/// Whether the first document contains the second.
fn contains(alloc: Global, text: &str, other: &str) -> Result<bool, ValueError> {
    let json = Json::read(alloc, text)?;
    let wanted = Json::read(alloc, other)?;
    Ok(json.contains(&wanted))
}

/// Two documents, and whether the first contains the second.
const PAIRS: [(&'static str, &'static str, bool); 34] = [
    ("[1,2,[1,3]]", "[1,3]", false),
    ("[1,2,[1,3]]", "[[1,3]]", true),
    ("[1,2,[1,3]]", "[[3]]", true),
    ("[\"foo\"]", "\"foo\"", true),
    ("\"foo\"", "\"foo\"", true),
    ("\"foo\"", "[\"foo\"]", false),
    ("[\"foo\"]", "[\"foo\"]", true),
    ("{\"a\":{}}", "{\"a\":{}}", true),
    ("{\"a\":{\"b\":1}}", "{\"a\":{}}", true),
    ("{\"a\":1}", "{\"a\":{}}", false),
    ("[]", "{\"a\":{}}", false),
    ("{}", "[]", false),
    ("[]", "{}", false),
    ("{\"id\":9,\"tags\":[\"t9\"]}", "{\"tags\":[\"t9\"]}", true),
    ("{\"id\":7,\"tags\":[\"t7\"]}", "{\"tags\":[\"t9\"]}", false),
    (
        "{\"a\":[1,{\"b\":2}],\"c\":null}",
        "{\"a\":[{\"b\":2}]}",
        true,
    ),
    ("{\"a\":[1,{\"b\":2}],\"c\":null}", "{\"a\":1}", false),
    ("{\"a\":[1,{\"b\":2}],\"c\":null}", "{\"c\":null}", true),
    ("{\"a\":1,\"c\":2,\"e\":3}", "{\"e\":3,\"a\":1}", true),
    ("{\"a\":1,\"c\":2,\"e\":3}", "{\"b\":1}", false),
    ("{\"a\":1,\"c\":2,\"e\":3}", "{\"f\":1}", false),
    ("[\"a\",\"b\"]", "[\"b\",\"a\",\"a\"]", true),
    ("[[1,2]]", "[[1]]", true),
    ("[[1,2]]", "1", false),
    ("[[\"a\"]]", "[\"a\"]", false),
    ("1", "1", true),
    ("1", "2", false),
    ("true", "true", true),
    ("null", "false", false),
    ("[null,true]", "[]", true),
    ("[null,true]", "true", true),
    ("[[]]", "[]", true),
    ("{}", "{}", true),
    ("[{}]", "{}", false),
];

#[test]
fn documents_in_one_another(rt: HostRuntime) {
    for (text, other, want) in &PAIRS {
        assert!(rt;
            contains(rt.alloc(), text, other) == Ok(*want),
            "{other} in {text}"
        );
    }
}
