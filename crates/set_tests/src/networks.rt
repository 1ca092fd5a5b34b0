//! Seeded networks and addresses.

ghost use Rattle.std.specs.Prelude.{IfOk, MatchOption};
ghost use Rattle.gx_inet.specs.Value.{IsInet};

use crate::seeded::Seeded;
use gx_class_inet::{InetClass, InetOp, InetQuery};
use gx_inet::Inet;
use gx_pages::PageError;
use std::alloc::Global;

fn inet_of(alloc: Global, text: &str) -> Result<Inet, PageError>
    ensures { IfOk result IsInet }
{
    match Inet::read(alloc, text) {
        Ok(inet) => Ok(inet),
        Err(_) => Err(PageError::Memory),
    }
}

/// An address or a network, one in seven of IPv6.
fn inet_at(alloc: Global, number: u32) -> Result<Inet, PageError>
    ensures { IfOk result IsInet }
{
    let (a, b, mask) = (number % 97, number % 251 * 7 % 251, number % 17 + 16);
    let text = if number % 7 == 0 {
        format!(in alloc; "2001:db8:{a}::{b}")
    } else {
        format!(in alloc; "10.{a}.{b}.{a}/{mask}")
    };
    match text {
        Ok(text) => inet_of(alloc, &text),
        Err(_) => Err(PageError::Memory),
    }
}

/// The operator at this place, and its operand.
fn question(place: usize) -> Option<(InetOp, &'static str)> {
    let found = match place {
        0 => (InetOp::Less, "10.40.0.0/16"),
        1 => (InetOp::LessEqual, "10.40.0.0/16"),
        2 => (InetOp::Greater, "10.40.0.0/16"),
        3 => (InetOp::GreaterEqual, "2001:db8:40::1"),
        4 => (InetOp::Within, "10.0.0.0/10"),
        5 => (InetOp::WithinEqual, "2001:db8:28::/48"),
        6 => (InetOp::Meets, "10.41.0.0/16"),
        7 => (InetOp::HoldsEqual, "10.3.21.3"),
        8 => (InetOp::NotEqual, "10.3.21.3"),
        _ => return None,
    };
    Some(found)
}

fn query_at(alloc: Global, place: usize) -> Result<Option<InetQuery>, PageError>
    ensures { IfOk result (λ found. MatchOption found (Unit {0}) (λ q. IsInet q.operand)) }
{
    if place == 9 {
        let operand = inet_at(alloc, 1001)?;
        return Ok(Some(InetQuery {
            op: InetOp::Equal,
            operand,
        }));
    }
    let Some((op, text)) = question(place) else {
        return Ok(None);
    };
    let operand = inet_of(alloc, text)?;
    Ok(Some(InetQuery { op, operand }))
}

impl Seeded for InetClass {
    fn value(&self, alloc: Global, number: u32) -> Result<Inet, PageError> {
        inet_at(alloc, number)
    }

    fn query(&self, alloc: Global, place: usize) -> Result<Option<InetQuery>, PageError> {
        query_at(alloc, place)
    }
}
