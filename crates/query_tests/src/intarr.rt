//! Worked texts, operators, bytes and queries, boundary values, and each call once.

use crate::lquery::repeated;
use gx_bytes::{Bytes, NoMemory, ValueError};
use gx_intarr::{IntArray, IntQuery, QueryInt, Texts};
use std::alloc::Global;
use std::test::Fail;

/// An array text, the count of its elements, and each with a semicolon behind it.
const ELEMENTS: [(&'static str, usize, &'static str); 8] = [
    ("{}", 0, ""),
    (" \t{}\n", 0, ""),
    ("{a}", 1, "a;"),
    ("{ a b ,c\n}", 2, "a b;c;"),
    ("{\"\",\"NULL\",nulls}", 3, ";NULL;nulls;"),
    ("{\"a,{}\\\"\\\\\\b \"}", 1, "a,{}\"\\b ;"),
    ("{\"1\", 2}", 2, "1;2;"),
    ("{\x0ba}", 1, "\x0ba;"),
];

/// The elements of an array text, each with a semicolon behind it.
fn joined(alloc: Global, texts: &Texts) -> Result<Bytes, NoMemory> {
    let mut joined = Bytes::new(alloc);
    for text in texts.as_slice() {
        joined.extend_from_slice(text.as_slice())?;
        joined.push(b';')?;
    }
    Ok(joined)
}

/// Whether an array text, and a copy, have so many elements, which are these.
fn has_elements(alloc: Global, text: &str, count: usize, want: &str) -> Result<bool, ValueError> {
    let texts = Texts::read(alloc, text)?;
    let Ok(copy) = texts.copy(alloc) else {
        return Err(ValueError::Memory);
    };
    let ends = texts.count() == count && texts.text(count).is_none();
    match joined(alloc, &copy) {
        Ok(joined) => Ok(ends && joined.as_slice() == want.as_bytes()),
        Err(_) => Err(ValueError::Memory),
    }
}

#[test]
fn elements_of_array_texts(rt: HostRuntime) {
    for (text, count, want) in &ELEMENTS {
        assert!(rt;
            has_elements(rt.alloc(), text, *count, want) == Ok(true),
            "at {text}"
        );
    }
    for text in &NO_ARRAYS {
        assert!(rt;
            Texts::read(rt.alloc(), text).err() == Some(ValueError::NoValue),
            "at {text}"
        );
    }
}

/// Texts that are no array texts.
const NO_ARRAYS: [&'static str; 24] = [
    "",
    " ",
    "{",
    "}",
    "{ }",
    "{,}",
    "{a,}",
    "{,a}",
    "{a",
    "a}",
    "{a}}",
    "{{a}}",
    "{a}b",
    "{null}",
    "{a,NuLL}",
    "{a\\b}",
    "{a\"b\"}",
    "{\"a\"b}",
    "{\"a\" }",
    "{ \"a\"}",
    "{\"a\\\"}",
    "{\"a}",
    "{a, }",
    "()",
];

/// An array, and its printed text.
const PRINTED: [(&'static str, &'static str); 4] = [
    ("{}", "{}"),
    (" { 1 ,-2, 003 } ", "{1,-2,3}"),
    ("{\"1\",\" +7 \"}", "{1,7}"),
    (
        "{2147483647,-2147483648,0,0}",
        "{2147483647,-2147483648,0,0}",
    ),
];

/// The printed text of a copy of the array, and the bytes.
fn written(alloc: Global, array: &IntArray) -> Result<(Bytes, Bytes), NoMemory> {
    let mut printed = Bytes::new(alloc);
    array.copy(alloc)?.print(&mut printed)?;
    let mut bytes = Bytes::new(alloc);
    array.encode(&mut bytes)?;
    Ok((printed, bytes))
}

/// Whether the bytes are those of the array.
fn is_decoded(alloc: Global, bytes: &[u8], array: &IntArray) -> bool {
    match IntArray::decode(alloc, bytes) {
        Ok(Some(again)) => again.same(array),
        _ => false,
    }
}

/// Whether the array of a text is printed so, and read again from its bytes.
fn is_written_so(alloc: Global, text: &str, want: &str) -> Result<bool, ValueError> {
    let array = IntArray::read(alloc, text)?;
    match written(alloc, &array) {
        Ok((printed, bytes)) => Ok(
            printed.as_slice() == want.as_bytes() && is_decoded(alloc, bytes.as_slice(), &array),
        ),
        Err(_) => Err(ValueError::Memory),
    }
}

#[test]
fn arrays_are_read_and_printed(rt: HostRuntime) {
    for (text, want) in &PRINTED {
        assert!(rt;
            is_written_so(rt.alloc(), text, want) == Ok(true),
            "at {text}"
        );
    }
    for (text, want) in &REFUSED {
        assert!(rt;
            IntArray::read(rt.alloc(), text).err() == Some(*want),
            "at {text}"
        );
    }
}

/// A text, and why it is no array of int4.
const REFUSED: [(&'static str, ValueError); 11] = [
    ("{1", ValueError::NoValue),
    ("{1,x}", ValueError::NoValue),
    ("{1,NULL}", ValueError::NoValue),
    ("{1 2}", ValueError::NoValue),
    ("{{1}}", ValueError::NoValue),
    ("{2147483648}", ValueError::OutOfRange),
    ("{1,-2147483649,x}", ValueError::OutOfRange),
    ("{x,2147483648}", ValueError::NoValue),
    ("{2147483648,}", ValueError::NoValue),
    ("{99999999999999999999}", ValueError::OutOfRange),
    ("{\x0b1}", ValueError::NoValue),
];

/// Arrays, and their bytes.
const ENCODED: [(&'static str, &'static [u8]); 2] = [
    (
        "{1,-2,256}",
        &[3, 1, 0, 0, 0, 254, 255, 255, 255, 0, 1, 0, 0],
    ),
    ("{}", &[0]),
];

/// Bytes of no array.
const NO_BYTES: [&'static [u8]; 7] = [
    &[],
    &[1],
    &[0, 0],
    &[1, 1, 0, 0],
    &[1, 1, 0, 0, 0, 0],
    &[129, 0, 1, 0, 0, 0],
    &[2, 1, 0, 0, 0],
];

/// The bytes of an array, which are decoded to it.
fn encoded(alloc: Global, text: &str) -> Result<Bytes, ValueError> {
    let array = IntArray::read(alloc, text)?;
    match written(alloc, &array) {
        Ok((_, bytes)) => if is_decoded(alloc, bytes.as_slice(), &array) {
            Ok(bytes)
        } else {
            Err(ValueError::NoValue)
        },
        Err(_) => Err(ValueError::Memory),
    }
}

fn decodes(alloc: Global, bytes: &[u8]) -> Result<bool, NoMemory> {
    Ok(IntArray::decode(alloc, bytes)?.is_some())
}

#[test]
fn arrays_as_bytes(rt: HostRuntime) -> Result<(), Fail> {
    for (text, want) in &ENCODED {
        assert!(rt; encoded(rt.alloc(), text)?.as_slice() == *want, "at {text}");
    }
    for bytes in &NO_BYTES {
        assert!(rt; decodes(rt.alloc(), bytes) == Ok(false), "at {bytes:?}");
    }
    let text = repeated(rt.alloc(), "5,", 127, "6}")?;
    let bytes = encoded(rt.alloc(), format!(in rt.alloc(); "{{{text}")?.as_str())?;
    assert!(rt; bytes.len() == 2 + 4 * 128);
    assert!(rt; bytes.as_slice().starts_with(&[128, 1, 5, 0, 0, 0]));
    assert!(rt; bytes.as_slice().ends_with(&[6, 0, 0, 0]));
    Ok(())
}

fn texts_of(alloc: Global, words: &[&str]) -> Result<Texts, NoMemory> {
    let mut texts = Texts::new(alloc);
    for word in words {
        texts.push(Bytes::from_slice(alloc, word.as_bytes())?)?;
    }
    Ok(texts)
}

#[test]
fn arrays_of_given_parts(rt: HostRuntime) -> Result<(), Fail> {
    let alloc = rt.alloc();
    let array = IntArray::from_items(alloc, Vec::from_array(alloc, [2, -1, 2])?)?;
    assert!(rt; array.items() == [2, -1, 2].as_slice());
    let texts = texts_of(alloc, &[" +7", "-2147483648"])?;
    let array = IntArray::from_texts(alloc, &texts)?;
    assert!(rt; array.items() == [7, -2147483648].as_slice());
    let texts = texts_of(alloc, &["7", "2147483648", "x"])?;
    let fault = IntArray::from_texts(alloc, &texts).err();
    assert!(rt; fault == Some(ValueError::OutOfRange));
    Ok(())
}

/// Two arrays, and whether the first overlaps the second, contains it, and is the same.
const PAIRS: [(&'static str, &'static str, [bool; 3]); 24] = [
    ("{}", "{}", [false, true, true]),
    ("{}", "{1}", [false, false, false]),
    ("{1}", "{}", [false, true, false]),
    ("{1,2,3}", "{3}", [true, true, false]),
    ("{3}", "{1,2,3}", [true, false, false]),
    ("{1,2,3}", "{3,4}", [true, false, false]),
    ("{1,2}", "{2,1}", [true, true, false]),
    ("{1,1}", "{1}", [true, true, false]),
    ("{1}", "{1,1}", [true, true, false]),
    ("{5,-7,9}", "{5,-7,9}", [true, true, true]),
    ("{2147483647,4}", "{-2147483648,5}", [false, false, false]),
    ("{}", "{1,2}", [false, false, false]),
    ("{}", "{2,1}", [false, false, false]),
    ("{}", "{3}", [false, false, false]),
    ("{2,1}", "{2,1}", [true, true, true]),
    ("{3}", "{2,1}", [false, false, false]),
    ("{1,100}", "{50}", [false, false, false]),
    ("{200}", "{50}", [false, false, false]),
    ("{1}", "{1}", [true, true, true]),
    ("{33}", "{1}", [false, false, false]),
    ("{9,10,2003}", "{10}", [true, true, false]),
    ("{33,34,2003}", "{2003,33}", [true, true, false]),
    ("{1,2,2001,2002}", "{1,2,2001}", [true, true, false]),
    ("{4,5,2004}", "{4,5,2004}", [true, true, true]),
];

fn answers(alloc: Global, left: &str, right: &str) -> Result<[bool; 3], ValueError> {
    let a = IntArray::read(alloc, left)?;
    let b = IntArray::read(alloc, right)?;
    Ok([a.overlaps(&b), a.contains(&b), a.same(&b)])
}

#[test]
fn operators_of_arrays(rt: HostRuntime) {
    for (left, right, wants) in &PAIRS {
        assert!(rt;
            answers(rt.alloc(), left, right) == Ok(*wants),
            "{left} and {right}"
        );
    }
}

/// A query, and whether `{}`, `{1}`, `{1,2}`, `{-3,2}` and `{7}` match.
const QUERIES: [(&'static str, [bool; 5]); 9] = [
    ("1", [false, true, true, false, false]),
    ("!1", [true, false, false, true, true]),
    ("1 & 2", [false, false, true, false, false]),
    (" -3 | ! ( 1|2 ) ", [true, false, false, true, true]),
    ("007|1&2", [false, false, true, false, true]),
    ("(7|1)&2", [false, false, true, false, false]),
    ("!!2&!-3", [false, false, true, false, false]),
    (
        "-2147483648 | 2147483647",
        [false, false, false, false, false],
    ),
    ("010 | 7", [false, false, false, false, true]),
];

/// A query, an array, and whether the query is true of it.
const MATCHED: [(&'static str, &'static str, bool); 4] = [
    ("!1", "{}", true),
    ("!1", "{1,2}", false),
    ("!1", "{2,1}", false),
    ("!1", "{3}", true),
];

/// Whether the query is true of the array, or why a text is none.
fn matched(alloc: Global, array: &str, query: &str) -> Result<bool, ValueError> {
    let array = IntArray::read(alloc, array)?;
    let query = QueryInt::read(alloc, query)?;
    Ok(query.holds(&array))
}

#[test]
fn queries_over_arrays(rt: HostRuntime) {
    for (text, wants) in &QUERIES {
        for (array, want) in ["{}", "{1}", "{1,2}", "{-3,2}", "{7}"]
            .iter()
            .zip(wants.iter())
        {
            assert!(rt;
                matched(rt.alloc(), array, text) == Ok(*want),
                "{text} of {array}"
            );
        }
    }
    for (text, array, want) in &MATCHED {
        assert!(rt;
            matched(rt.alloc(), array, text) == Ok(*want),
            "{text} of {array}"
        );
    }
}

/// A text, and why it is no query.
const NO_QUERIES: [(&'static str, ValueError); 21] = [
    ("", ValueError::NoValue),
    (" ", ValueError::NoValue),
    ("1 2", ValueError::NoValue),
    ("1-2", ValueError::NoValue),
    ("- 1", ValueError::NoValue),
    ("--1", ValueError::NoValue),
    ("+1", ValueError::NoValue),
    ("1a", ValueError::NoValue),
    ("-", ValueError::NoValue),
    ("1\x0b", ValueError::NoValue),
    ("(1", ValueError::NoValue),
    ("1)", ValueError::NoValue),
    ("1 & & 2", ValueError::NoValue),
    ("2147483648", ValueError::OutOfRange),
    ("-2147483649", ValueError::OutOfRange),
    ("1&(2|!2147483648", ValueError::OutOfRange),
    ("99999999999999999999 )", ValueError::OutOfRange),
    ("1 2147483648", ValueError::NoValue),
    ("1) & 2147483648", ValueError::NoValue),
    ("1 & | 2147483648", ValueError::NoValue),
    ("(1) 2147483648", ValueError::NoValue),
];

/// A part of a query, how many times it stands before another, and why the whole is refused.
const LIMITS: [(&'static str, usize, &'static str, Option<ValueError>); 13] = [
    ("!", 64, "1", None),
    ("!", 64, "2147483648", Some(ValueError::OutOfRange)),
    ("!", 65, "2147483648", Some(ValueError::TooDeep)),
    ("(", 65, "1", Some(ValueError::TooDeep)),
    ("(!", 32, "1", Some(ValueError::NoValue)),
    ("(!", 32, "(1", Some(ValueError::TooDeep)),
    ("1|2&", 512, "1", None),
    ("1|2&", 512, "1|", Some(ValueError::TooDeep)),
    ("1|", 1024, "1", None),
    ("1|", 1025, "1", Some(ValueError::TooDeep)),
    ("1|", 1024, "2147483648|", Some(ValueError::OutOfRange)),
    ("1|", 1025, "2147483648", Some(ValueError::TooDeep)),
    ("1|", 1024, "1 2147483648", Some(ValueError::NoValue)),
];

/// Whether `(!`, 32 times, is true of `{1}` with as many closing parentheses behind a 1.
fn nested_match(alloc: Global) -> Result<bool, NoMemory> {
    let open = repeated(alloc, "(!", 32, "1")?;
    let close = repeated(alloc, ")", 32, "")?;
    let text = format!(in alloc; "{open}{close}")?;
    Ok(matched(alloc, "{1}", text.as_str()) == Ok(true))
}

#[test]
fn faults_and_limits_of_queries(rt: HostRuntime) -> Result<(), Fail> {
    for (text, want) in &NO_QUERIES {
        assert!(rt;
            QueryInt::read(rt.alloc(), text).err() == Some(*want),
            "at {text}"
        );
    }
    for (part, count, end, want) in &LIMITS {
        let text = repeated(rt.alloc(), part, *count, end)?;
        assert!(rt;
            QueryInt::read(rt.alloc(), text.as_str()).err() == *want,
            "{count} times {part}"
        );
    }
    assert!(rt; nested_match(rt.alloc()) == Ok(true));
    Ok(())
}

/// An array, and whether `&&`, `@>`, `<@` and `=` hold with it on the right.
const OPERANDS: [(&'static str, [bool; 4]); 5] = [
    ("{3,5}", [true, false, false, false]),
    ("{1,3}", [true, true, true, false]),
    ("{3,1,3}", [true, true, true, true]),
    ("{1,2,3}", [true, false, true, false]),
    ("{}", [false, true, false, false]),
];

/// Whether `&&`, `@>`, `<@` and `=` hold of `{3,1,3}` and the array.
fn operators(alloc: Global, text: &str) -> Result<[bool; 4], ValueError> {
    let set = IntArray::read(alloc, "{3,1,3}")?;
    let overlaps = IntQuery::Overlaps(IntArray::read(alloc, text)?).holds(&set);
    let contains = IntQuery::Contains(IntArray::read(alloc, text)?).holds(&set);
    let within = IntQuery::Within(IntArray::read(alloc, text)?).holds(&set);
    let equal = IntQuery::Equal(IntArray::read(alloc, text)?).holds(&set);
    Ok([overlaps, contains, within, equal])
}

#[test]
fn operators_of_every_operand(rt: HostRuntime) -> Result<(), Fail> {
    for (text, wants) in &OPERANDS {
        assert!(rt; operators(rt.alloc(), text) == Ok(*wants), "{text}");
    }
    let set = IntArray::read(rt.alloc(), "{3,1,3}")?;
    assert!(rt; set.distinct(rt.alloc())?.as_slice() == [1, 3].as_slice());
    let query = QueryInt::read(rt.alloc(), "1 & !2 | 7")?.copy(rt.alloc())?;
    assert!(rt; IntQuery::Formula(query).holds(&set));
    Ok(())
}
