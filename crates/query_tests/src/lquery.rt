//! Worked queries, boundary values, and each call once.

use gx_bytes::{NoMemory, ValueError};
use gx_lquery::{Lqueries, Lquery};
use gx_ltree::Path;
use std::alloc::Global;
use std::test::Fail;

/// Whether the query matches the path, or why a text is none.
fn matched(alloc: Global, path: &str, query: &str) -> Result<bool, ValueError> {
    let path = Path::read(alloc, path)?;
    let query = Lquery::read(alloc, query)?;
    match query.matches(alloc, &path) {
        Ok(answer) => Ok(answer),
        Err(_) => Err(ValueError::Memory),
    }
}

/// A query of all kinds of items.
const SPORTS: &'static str = "Top.*{0,2}.sport*@.!football|tennis{1,}.Russ*|Spain";

/// A query, a path, and whether it matches.
const MATCHED: [(&'static str, &'static str, bool); 6] = [
    (SPORTS, "Top.Sport.Hockey.Russia", true),
    (SPORTS, "Top.A.B.SPORTS.x.y.Spain", true),
    (SPORTS, "Top.A.B.C.sport.x.Spain", false),
    (SPORTS, "Top.sport.hockey.football.Spain", false),
    (SPORTS, "Top.sport.Spain", false),
    (SPORTS, "Top.sport.hockey.Spains", false),
];

/// A query, and whether the empty path, `a`, `a.b`, `A.B.c` and `b.a` match.
const ITEMS: [(&'static str, [bool; 5]); 15] = [
    ("*", [true, true, true, true, true]),
    ("*{1,}", [false, true, true, true, true]),
    ("a", [false, true, false, false, false]),
    ("a.*", [false, true, true, false, false]),
    ("*.a", [false, true, false, false, true]),
    ("A@.*{1}", [false, false, true, false, false]),
    ("a@*{0,}.*{2,2}", [false, false, true, true, true]),
    ("*{2}", [false, false, true, false, true]),
    ("*{,1}", [true, true, false, false, false]),
    ("!a", [false, false, false, false, false]),
    ("!a.*", [false, false, false, true, true]),
    ("a|b{2}", [false, false, true, false, true]),
    ("!a|b{1,}", [false, false, false, true, false]),
    ("!x{0,}", [true, true, true, true, true]),
    ("a{02}", [false, false, false, false, false]),
];

#[test]
fn items_one_by_one(rt: HostRuntime) {
    for (query, path, want) in &MATCHED {
        assert!(rt;
            matched(rt.alloc(), path, query) == Ok(*want),
            "{path} at {query}"
        );
    }
    for (query, wants) in &ITEMS {
        for (path, want) in ["", "a", "a.b", "A.B.c", "b.a"].iter().zip(wants.iter()) {
            assert!(rt;
                matched(rt.alloc(), path, query) == Ok(*want),
                "{path} at {query}"
            );
        }
    }
}

/// Texts that are no query.
const REFUSED: [&'static str; 27] = [
    "",
    ".",
    "a.",
    ".a",
    "*{}",
    "*{2,1}",
    "*{,}",
    "!*",
    "!",
    "a||b",
    "|a",
    "!!a",
    "a{1",
    "a{-1}",
    "a b",
    " a",
    "*@",
    "*{65536}",
    "*{0,65536}",
    "a{ 1}",
    "a%",
    "a@b",
    "**",
    "a{1}{1}",
    "a{1}b",
    "a{1,2,3}",
    "a}",
];

#[test]
fn texts_that_are_refused(rt: HostRuntime) {
    for text in &REFUSED {
        assert!(rt;
            Lquery::read(rt.alloc(), text).err() == Some(ValueError::NoValue),
            "at {text}"
        );
    }
}

/// The queries with one more.
fn with_query(alloc: Global, queries: Lqueries, text: &str) -> Result<Lqueries, ValueError> {
    let query = Lquery::read(alloc, text)?;
    let mut queries = queries;
    match queries.push(query) {
        Ok(()) => Ok(queries),
        Err(_) => Err(ValueError::Memory),
    }
}

/// How many queries there are, and whether a copy of them matches the path.
fn some_matched(alloc: Global, path: &str, queries: &Lqueries) -> Result<(usize, bool), NoMemory> {
    let Ok(path) = Path::read(alloc, path) else {
        return Ok((0, false));
    };
    let copy = queries.copy(alloc)?;
    Ok((copy.as_slice().len(), copy.matches(alloc, &path)?))
}

/// A query more, how many there are then, and whether some query so far matches `Ab`.
const LISTED: [(&'static str, usize, bool); 3] = [
    ("*{65535}", 1, false),
    ("*{2,65535}", 2, false),
    ("a@*@{000,00001}", 3, true),
];

#[test]
fn the_greatest_counts_and_lists_of_queries(rt: HostRuntime) -> Result<(), Fail> {
    let alloc = rt.alloc();
    let mut queries = Lqueries::new(alloc);
    assert!(rt; some_matched(alloc, "Ab", &queries) == Ok((0, false)));
    for (text, count, want) in &LISTED {
        queries = with_query(alloc, queries, text)?;
        assert!(rt;
            some_matched(alloc, "Ab", &queries) == Ok((*count, *want)),
            "at {text}"
        );
    }
    assert!(rt; matched(alloc, "Ab", "*{0,65535}") == Ok(true));
    Ok(())
}

/// The part this many times, and an end behind it.
pub fn repeated(alloc: Global, part: &str, count: usize, end: &str) -> Result<String, NoMemory> {
    let mut text = String::new(alloc);
    for _ in 0..count {
        text.push_str(part)?;
    }
    text.push_str(end)?;
    Ok(text)
}

/// Whether a query of so many stars and a `b` matches a path of so many labels `a`.
fn stars_match(alloc: Global, labels: usize, stars: usize) -> Result<bool, NoMemory> {
    let path = repeated(alloc, "a.", labels, "a")?;
    let query = repeated(alloc, "*.", stars, "b")?;
    Ok(matched(alloc, path.as_str(), query.as_str()) == Ok(true))
}

#[test]
fn many_stars_on_many_labels_end_soon(rt: HostRuntime) {
    for (labels, stars) in [(199, 60), (1499, 1500)] {
        assert!(rt; stars_match(rt.alloc(), labels, stars) == Ok(false));
    }
}
