//! The tests of keys.

ghost use Rattle.std.specs.Prelude.{◌≡◌, ◌≤◌};
ghost use Rattle.gx_inet.specs.Value.{width, IsInet};
ghost use Rattle.std.specs.Ordering.{nat_cmp};
ghost use Rattle.gx_inet.specs.Operators.{front};
ghost use Rattle.gx_class_inet.specs.Keys.{first, IsNet, IsKey};
ghost use Rattle.gx_class_inet.specs.Tests.{inet_of, leaf_answer, reach, same_first, net_may, family_may, key_may, inner_answer, key_test};

use crate::join::{bits, width_of};
use crate::{InetKey, Net};
use gx_gist::Test;
use gx_inet::{Inet, InetOp, inet_holds};
use std::cmp::Ordering;

/// The test of a key.
pub fn test_key(at_leaf: bool, op: InetOp, key: InetKey, operand: Inet) -> Test
    requires key { IsKey key }
    requires operand { IsInet operand }
    ensures { result ≡ key_test at_leaf op key operand }
{
    if at_leaf {
        test_leaf(op, key, operand)
    } else if key_may(op, key, operand) {
        Test::Maybe
    } else {
        Test::No
    }
}

/// The test of the key of one address.
fn test_leaf(op: InetOp, key: InetKey, operand: Inet) -> Test
    requires key { IsKey key }
    requires operand { IsInet operand }
    ensures { result ≡ leaf_answer op key operand }
{
    match key {
        InetKey::Mixed => Test::No,
        InetKey::Family(key) => {
            if inet_holds(op, &inet_of(key), &operand) {
                Test::Yes
            } else {
                Test::No
            }
        }
    }
}

fn inet_of(key: Net) -> Inet
    ensures { result ≡ inet_of key }
{
    Inet {
        v6: key.v6,
        mask: key.mask,
        address: key.address,
    }
}

fn key_may(op: InetOp, key: InetKey, operand: Inet) -> bool
    requires key { IsKey key }
    requires operand { IsInet operand }
    ensures { result ≡ key_may op key operand }
{
    match key {
        InetKey::Mixed => true,
        InetKey::Family(key) => {
            if key.v6 == operand.v6 {
                net_may(op, key, operand)
            } else {
                family_may(op, key.v6.cmp(&operand.v6))
            }
        }
    }
}

fn family_may(op: InetOp, place: Ordering) -> bool
    ensures { result ≡ family_may op place }
{
    match op {
        InetOp::NotEqual => true,
        InetOp::Less => place.is_lt(),
        InetOp::LessEqual => place.is_le(),
        InetOp::Greater => place.is_gt(),
        InetOp::GreaterEqual => place.is_ge(),
        _ => false,
    }
}

fn net_may(op: InetOp, key: Net, operand: Inet) -> bool
    requires key { IsNet key }
    requires operand { IsInet operand }
    requires family { key.v6 ≡ operand.v6 }
    ensures { result ≡ net_may op key operand }
{
    let reach = key.common.min(key.mask.min(operand.mask));
    match op {
        InetOp::Equal => same_first(key, operand, key.common),
        InetOp::NotEqual => true,
        InetOp::Less => compare_first(key, operand, reach).is_le(),
        InetOp::LessEqual => compare_first(key, operand, reach).is_le(),
        InetOp::Greater => compare_first(key, operand, reach).is_ge(),
        InetOp::GreaterEqual => compare_first(key, operand, reach).is_ge(),
        InetOp::Within => same_first(key, operand, key.common.min(operand.mask)),
        InetOp::WithinEqual => same_first(key, operand, key.common.min(operand.mask)),
        InetOp::Holds => same_first(key, operand, reach) && key.mask < operand.mask,
        InetOp::HoldsEqual => same_first(key, operand, reach) && key.mask <= operand.mask,
        InetOp::Meets => same_first(key, operand, reach),
    }
}

fn same_first(key: Net, operand: Inet, count: u8) -> bool
    requires key { IsNet key }
    requires operand { IsInet operand }
    requires family { key.v6 ≡ operand.v6 }
    requires inside { count ≤ width key.v6 }
    ensures { result ≡ same_first key operand count }
{
    let width = width_of(key.v6);
    bits(key.address, width, count) == bits(operand.address, width, count)
}

fn compare_first(key: Net, operand: Inet, count: u8) -> Ordering
    requires key { IsNet key }
    requires operand { IsInet operand }
    requires family { key.v6 ≡ operand.v6 }
    requires inside { count ≤ width key.v6 }
    ensures { result ≡ nat_cmp (first key count) (front operand count) }
{
    let width = width_of(key.v6);
    bits(key.address, width, count).cmp(&bits(operand.address, width, count))
}
