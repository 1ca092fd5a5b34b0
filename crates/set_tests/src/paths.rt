//! Seeded label paths, every tenth of them too long for a key.

ghost use Rattle.std.specs.Prelude.{IfOk};
ghost use Rattle.gx_ltree.specs.Path.{IsPath};

use crate::seeded::Seeded;
use gx_class_ltree::{LtreeClass, LtreeQuery};
use gx_lquery::{Lqueries, Lquery};
use gx_ltree::{LtreeOp, Path};
use gx_ltxtquery::Ltxtquery;
use gx_pages::PageError;
use std::alloc::Global;

fn path_of(alloc: Global, text: &str) -> Result<Path, PageError>
    ensures { IfOk result IsPath }
{
    match Path::read(alloc, text) {
        Ok(path) => Ok(path),
        Err(_) => Err(PageError::Memory),
    }
}

fn lquery_of(alloc: Global, text: &str) -> Result<Lquery, PageError> {
    match Lquery::read(alloc, text) {
        Ok(query) => Ok(query),
        Err(_) => Err(PageError::Memory),
    }
}

fn words_of(alloc: Global, text: &str) -> Result<Ltxtquery, PageError> {
    match Ltxtquery::read(alloc, text) {
        Ok(query) => Ok(query),
        Err(_) => Err(PageError::Memory),
    }
}

/// A label of 120 bytes.
const LONG: &str =
    "abcdefghijabcdefghijabcdefghijabcdefghijabcdefghijabcdefghijabcdefghijabcdefghijabcdefghijabcdefghijabcdefghijabcdefghij";

/// The path of a number: all below Top, and a label of the last part of every tenth isn't in its key.
fn path_at(alloc: Global, number: u32) -> Result<Path, PageError>
    ensures { IfOk result IsPath }
{
    let (a, b, c, long) = (number % 11, number % 101 * 7 % 101, number, LONG);
    let text = if number % 10 == 3 {
        format!(in alloc; "Top.a{a}.{long}.{long}.{long}.{long}.{long}.b{b}.c{c}")
    } else {
        format!(in alloc; "Top.a{a}.b{b}.c{c}")
    };
    match text {
        Ok(text) => path_of(alloc, &text),
        Err(_) => Err(PageError::Memory),
    }
}

fn operator(alloc: Global, op: LtreeOp, number: u32) -> Result<LtreeQuery, PageError> {
    let operand = path_at(alloc, number)?;
    Ok(LtreeQuery::Path { op, operand })
}

fn some_of(alloc: Global, first: &str, second: &str) -> Result<Lqueries, PageError> {
    let mut queries = Lqueries::new(alloc);
    for text in [first, second] {
        let query = lquery_of(alloc, text)?;
        if queries.push(query).is_err() {
            return Err(PageError::Memory);
        }
    }
    Ok(queries)
}

impl Seeded for LtreeClass<8> {
    fn value(&self, alloc: Global, number: u32) -> Result<Path, PageError> {
        path_at(alloc, number)
    }

    fn query(&self, alloc: Global, place: usize) -> Result<Option<LtreeQuery>, PageError> {
        let query = match place {
            0 => operator(alloc, LtreeOp::Less, 501)?,
            1 => operator(alloc, LtreeOp::LessEqual, 503)?,
            2 => operator(alloc, LtreeOp::Equal, 1001)?,
            3 => operator(alloc, LtreeOp::Equal, 1003)?,
            4 => operator(alloc, LtreeOp::GreaterEqual, 503)?,
            5 => operator(alloc, LtreeOp::Greater, 501)?,
            6 => operator(alloc, LtreeOp::Above, 703)?,
            7 => LtreeQuery::Path {
                op: LtreeOp::Below,
                operand: path_of(alloc, "Top.a4")?,
            },
            8 => operator(alloc, LtreeOp::Below, 1003)?,
            9 => LtreeQuery::Lquery(lquery_of(alloc, "*.B5@.*{1}")?),
            10 => LtreeQuery::Lqueries(some_of(alloc, "Top.a7.!b3.*", "*.c1003")?),
            11 => LtreeQuery::Words(words_of(alloc, "a6 & !b9 | c1*")?),
            _ => return Ok(None),
        };
        Ok(Some(query))
    }
}
