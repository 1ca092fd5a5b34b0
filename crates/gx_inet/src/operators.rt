//! The operators on addresses.

ghost use Rattle.std.specs.Prelude.{◌≡◌, ◌≤◌, ◌↔◌, IsTrue};
ghost use Rattle.gx_inet.specs.Value.{width, IsInet};
ghost use Rattle.gx_inet.specs.Operators.{front, order, SameFront, IsWithin, Meets, Holds};
ghost use Rattle.gx_inet.specs.Decisions.{holds};

use crate::inet::{Inet, InetOp};
use crate::text::width_of;
use std::cmp::Ordering;

/// Whether the operator holds of the two addresses.
pub fn inet_holds(op: InetOp, a: &Inet, b: &Inet) -> bool
    requires left { IsInet a.now }
    requires right { IsInet b.now }
    ensures relation { IsTrue result ↔ Holds op a.now b.now }
    ensures decision { result ≡ holds op a.now b.now }
{
    holds_of(op, a, b)
}

fn holds_of(op: InetOp, a: &Inet, b: &Inet) -> bool
    requires left { IsInet a.now }
    requires right { IsInet b.now }
    ensures { IsTrue result ↔ Holds op a.now b.now }
{
    match op {
        InetOp::Equal => a.compare(b).is_eq(),
        InetOp::NotEqual => a.compare(b).is_ne(),
        InetOp::Less => a.compare(b).is_lt(),
        InetOp::LessEqual => a.compare(b).is_le(),
        InetOp::Greater => a.compare(b).is_gt(),
        InetOp::GreaterEqual => a.compare(b).is_ge(),
        InetOp::Within => a.within(b, true),
        InetOp::WithinEqual => a.within(b, false),
        InetOp::Holds => b.within(a, true),
        InetOp::HoldsEqual => b.within(a, false),
        InetOp::Meets => a.meets(b),
    }
}

impl Inet {
    /// The order of addresses: IPv4 before IPv6, then the bits that both masks cover, then the masks,
    /// then all bits.
    pub fn compare(&self, other: &Inet) -> Ordering
        requires left { IsInet self.now }
        requires right { IsInet other.now }
        ensures { result ≡ order self.now other.now }
    {
        let shared = self.mask.min(other.mask);
        self.v6
            .cmp(&other.v6)
            .then(first_bits(self, shared).cmp(&first_bits(other, shared)))
            .then(self.mask.cmp(&other.mask))
            .then(self.address.cmp(&other.address))
    }

    /// The network of `self` lies in that of `other` (`<<=`), and is smaller where `strict` (`<<`).
    pub fn within(&self, other: &Inet, strict: bool) -> bool
        requires left { IsInet self.now }
        requires right { IsInet other.now }
        ensures { IsTrue result ↔ IsWithin self.now other.now strict }
    {
        let smaller = if strict {
            self.mask > other.mask
        } else {
            self.mask >= other.mask
        };
        smaller && same_front(self, other, other.mask)
    }

    /// One of the two networks lies in the other (`&&`).
    pub fn meets(&self, other: &Inet) -> bool
        requires left { IsInet self.now }
        requires right { IsInet other.now }
        ensures { IsTrue result ↔ Meets self.now other.now }
    {
        same_front(self, other, self.mask.min(other.mask))
    }
}

/// Both addresses are of one family and begin with the same `count` bits.
fn same_front(a: &Inet, b: &Inet, count: u8) -> bool
    requires left { IsInet a.now }
    requires right { IsInet b.now }
    requires inside { (count ≤ width a.now.v6) × (count ≤ width b.now.v6) }
    ensures { IsTrue result ↔ SameFront a.now b.now count }
{
    a.v6 == b.v6 && first_bits(a, count) == first_bits(b, count)
}

/// The first bits of an address, as a number.
fn first_bits(inet: &Inet, count: u8) -> u128
    requires valid { IsInet inet.now }
    requires inside { count ≤ width inet.now.v6 }
    ensures { result ≡ front inet.now count }
{
    if count == 0 {
        return 0;
    }
    inet.address >> (width_of(inet.v6) - count)
}
