//! A script with blocks, faults and a checkpoint, its replies, and what is read again behind each piece.

use std::alloc::Global;
use std::test::Fail;

/// The pieces, each with its reply and with the number of what is read again where it is the last piece that was done.
pub const PIECES: [(&str, &str, usize); 23] = [
    ("CREATE TABLE t (a int4, b text);", "CREATE TABLE\n", 1),
    (
        "\nINSERT INTO t VALUES (1, 'one'), (2, NULL);",
        "INSERT 0 2\n",
        2,
    ),
    (" -- a comment; and white space\n;", "", 2),
    (
        "INSERT INTO t VALUES (7, 'seven'), ('x', 'y');",
        "ERROR E8\n",
        2,
    ),
    ("BEGIN;", "BEGIN\n", 2),
    ("INSERT INTO t (a) VALUES (3);", "INSERT 0 1\n", 2),
    ("CREATE TABLE u (r int4range);", "CREATE TABLE\n", 2),
    ("INSERT INTO u VALUES ('[1,4]');", "INSERT 0 1\n", 2),
    (
        "SELECT b, a FROM t WHERE a > 1;",
        "\\N\t2\n\\N\t3\nSELECT 2\n",
        2,
    ),
    ("COMMIT;", "COMMIT\n", 3),
    ("CHECKPOINT;", "CHECKPOINT\n", 3),
    ("BEGIN;", "BEGIN\n", 3),
    ("DELETE FROM t WHERE a < 3;", "DELETE 2\n", 3),
    ("SELECT * FROM v;", "ERROR E2\n", 3),
    ("INSERT INTO t VALUES (9, 'a;b');", "ERROR E22\n", 3),
    ("COMMIT;", "ROLLBACK\n", 3),
    ("DELETE FROM t WHERE a = 1;", "DELETE 1\n", 4),
    ("VACUUM t;", "VACUUM\n", 4),
    ("BEGIN;", "BEGIN\n", 4),
    ("DROP TABLE u;", "DROP TABLE\n", 4),
    ("ROLLBACK;", "ROLLBACK\n", 4),
    (
        "INSERT INTO u VALUES ('empty'), ('[3,3]');",
        "INSERT 0 2\n",
        5,
    ),
    ("DROP TABLE u", "DROP TABLE\n", 6),
];

/// The script that reads both tables.
pub const READ: &[u8] = b"SELECT * FROM t; SELECT * FROM u";

/// What it is answered.
const READINGS: [&str; 7] = [
    "ERROR E2\nERROR E2\n",
    "SELECT 0\nERROR E2\n",
    "1\tone\n2\t\\N\nSELECT 2\nERROR E2\n",
    "1\tone\n2\t\\N\n3\t\\N\nSELECT 3\n[1,5)\nSELECT 1\n",
    "2\t\\N\n3\t\\N\nSELECT 2\n[1,5)\nSELECT 1\n",
    "2\t\\N\n3\t\\N\nSELECT 2\n[1,5)\nempty\n[3,4)\nSELECT 3\n",
    "2\t\\N\n3\t\\N\nSELECT 2\nERROR E2\n",
];

/// The script's bytes.
pub fn script(alloc: Global) -> Result<Vec<u8>, Fail> {
    let mut bytes = Vec::new(alloc);
    for (piece, _, _) in &PIECES {
        bytes.extend_from_slice(piece.as_bytes())?;
    }
    Ok(bytes)
}

/// The replies to the first pieces.
pub fn replies(alloc: Global, pieces: usize) -> Result<Vec<u8>, Fail> {
    let mut bytes = Vec::new(alloc);
    for (_, reply, _) in PIECES.iter().take(pieces) {
        bytes.extend_from_slice(reply.as_bytes())?;
    }
    Ok(bytes)
}

/// How many pieces, the most, have just these bytes as replies; none where no pieces do.
pub fn pieces_replied(answered: &[u8]) -> Option<usize> {
    let mut rest = answered;
    let mut pieces = 0usize;
    for (_, reply, _) in &PIECES {
        let Some(after) = rest.strip_prefix(reply.as_bytes()) else {
            break;
        };
        rest = after;
        pieces = pieces.saturating_add(1);
    }
    if rest.is_empty() { Some(pieces) } else { None }
}

/// How many pieces a `;` ends in the first bytes of the script.
pub fn pieces_ended(taken: usize) -> usize {
    let mut end = 0usize;
    let mut pieces = 0usize;
    for (piece, _, _) in &PIECES {
        end = end.saturating_add(piece.len());
        if end <= taken && piece.ends_with(";") {
            pieces = pieces.saturating_add(1);
        }
    }
    pieces
}

/// What is read again where so many pieces were done. Where they are all done, a further one changes nothing.
pub fn reading(pieces: usize) -> &'static [u8] {
    let mut number = 0;
    for (_, _, after) in PIECES.iter().take(pieces) {
        number = *after;
    }
    match READINGS.get(number) {
        Some(text) => text.as_bytes(),
        None => b"",
    }
}
