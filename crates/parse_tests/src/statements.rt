//! Pieces that say a statement, and pieces that say none.

use gx_bytes::Bytes;
use gx_parse::{ParseError, parse};
use std::alloc::Global;
use std::test::Fail;

#[test]
fn faults_have_their_place(rt: HostRuntime) {
    let rows = [
        ("SELECT * FORM t", 9),
        ("SELECT", 6),
        ("SELECT  ", 8),
        ("  SELECT", 8),
        ("SELEC * FROM t", 0),
        ("CREATE", 6),
        ("CREATE TABLE t (a int4", 22),
        ("CREATE TABLE t (a int4,)", 23),
        ("CREATE TABLE table (a int4)", 13),
        ("CREATE TABLE t ()", 16),
        ("CREATE TABLE t (a int4[)", 23),
        ("CREATE TABLE t (a int4))", 23),
        ("CREATE TABLE t (constraint int4)", 16),
        ("CREATE INDEX x ON t USING gist (a (siglen=8))", 34),
        ("CREATE INDEX x ON t USING gist (a b(siglen=c))", 43),
        ("INSERT INTO t VALUES", 20),
        ("INSERT INTO t VALUES ()", 22),
        ("INSERT INTO t VALUES (1),", 25),
        ("INSERT INTO t VALUES (ARRAY[NULL])", 28),
        ("INSERT INTO t () VALUES (1)", 15),
        ("INSERT INTO t VALUES (1)::int4", 24),
        ("DELETE t", 7),
        ("SELECT a b FROM t", 9),
        ("SELECT *, a FROM t", 8),
        ("SELECT a FROM t WHERE", 21),
        ("SELECT a FROM t WHERE a", 23),
        ("SELECT a FROM t WHERE a <-> 1", 24),
        ("SELECT a FROM t WHERE 1 = a", 22),
        ("SELECT a FROM t WHERE a = b", 26),
        ("SELECT a FROM t WHERE a = 1)", 27),
        ("SELECT a FROM t WHERE (a = 1", 28),
        ("SELECT a FROM t WHERE a IS 1", 27),
        ("SELECT a FROM t WHERE a = 1 AND", 31),
        ("SELECT a FROM t WHERE a -|--5", 24),
        ("SELECT a FROM t WHERE a = 'x", 26),
        ("EXPLAIN SELECT * FROM t", 8),
        ("DROP TABLE", 10),
        ("DROP VIEW v", 5),
        ("VACUUM", 6),
        ("CHECKPOINT t", 11),
        ("BEGIN;", 5),
        ("$", 0),
        ("SELECT \u{e9}", 7),
        (
            "DROP TABLE a23456789012345678901234567890123456789012345678901234567890abcd",
            11,
        ),
        ("DROP TABLE t\0", 12),
    ];
    for (piece, at) in rows {
        let fault = parse(rt.alloc(), piece.as_bytes()).err();
        assert!(rt; fault == Some(ParseError::Syntax { at }), "at {piece}");
    }
}

#[test]
fn bytes_that_are_no_text(rt: HostRuntime) {
    let rows = [
        (&b"SELECT \xff"[..], 7),
        (&b"SELEC\xc3"[..], 5),
        (&b"\0\xff"[..], 0),
        (&b"-- \xff\0"[..], 3),
    ];
    for (piece, at) in rows {
        assert!(rt; parse(rt.alloc(), piece).err() == Some(ParseError::Syntax { at }));
    }
}

#[test]
fn pieces_are_accepted(rt: HostRuntime) {
    let rows = [
        "",
        " \t\r\n\x0c -- nothing",
        "CREATE TABLE t (a int4, s int4[], n inet)",
        "create table Begin (Values INT4, commit text)",
        "DROP TABLE t",
        "CREATE INDEX x ON t USING gist (a)",
        "CREATE INDEX x ON t USING select (a gist_int4_ops)",
        "CREATE INDEX x ON t USING gin (s gist__intbig_ops(siglen=+8))",
        "DROP INDEX x",
        "INSERT INTO t VALUES (1), (-2, 'it''s', NULL), (ARRAY[], ARRAY['a',+1]::int4[])",
        "INSERT INTO t (a, s) VALUES ('x'::text)",
        "DELETE FROM t",
        "DELETE FROM t WHERE a = 1",
        "SELECT * FROM t",
        "SELECT a, b FROM t WHERE NOT (a <= 1 OR b IS NOT NULL) AND c @> '{}'::int4[]",
        "SELECT*FROM t WHERE a=-1--b\nAND b!='x'",
        "EXPLAIN ANALYZE SELECT a FROM t WHERE h ?& ARRAY[]",
        "VACUUM t",
        "CHECKPOINT",
        "BEGIN",
        "COMMIT",
        "ROLLBACK",
    ];
    for piece in rows {
        assert!(rt; parse(rt.alloc(), piece.as_bytes()).is_ok(), "at {piece}");
    }
}

/// A DELETE with a part so many times before a condition, and another so many times behind it.
fn repeated(
    alloc: Global,
    before: &[u8],
    many: usize,
    after: &[u8],
    more: usize,
) -> Result<Option<ParseError>, Fail> {
    let mut piece = Bytes::from_slice(alloc, b"DELETE FROM t WHERE ")?;
    for _ in 0..many {
        piece.extend_from_slice(before)?;
    }
    piece.extend_from_slice(b"a = 1")?;
    for _ in 0..more {
        piece.extend_from_slice(after)?;
    }
    Ok(parse(alloc, piece.as_slice()).err())
}

#[test]
fn conditions_that_go_too_deep(rt: HostRuntime) -> Result<(), Fail> {
    let deep = Some(ParseError::TooDeep);
    let alloc = rt.alloc();
    assert!(rt; repeated(alloc, b"(", 64, b")", 64)? == None);
    assert!(rt; repeated(alloc, b"(", 65, b")", 65)? == deep);
    assert!(rt; repeated(alloc, b"(", 65, b"", 0)? == deep);
    assert!(rt; repeated(alloc, b"NOT ", 64, b"", 0)? == None);
    assert!(rt; repeated(alloc, b"NOT ", 65, b"", 0)? == deep);
    assert!(rt; repeated(alloc, b"NOT (", 32, b")", 32)? == None);
    assert!(rt; repeated(alloc, b"NOT (", 33, b")", 33)? == deep);
    assert!(rt; repeated(alloc, b"", 0, b" AND NOT a = 1", 1024)? == None);
    assert!(rt; repeated(alloc, b"", 0, b" OR NOT (a = 1)", 1025)? == deep);
    assert!(rt; repeated(alloc, b"NOT a = 1 AND ", 1000, b"", 0)? == None);
    Ok(())
}
