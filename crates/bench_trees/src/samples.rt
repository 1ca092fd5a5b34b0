//! Values of the classes, one for each number.

ghost use Rattle.std.specs.Prelude.{IfSome};

use gx_bytes::NoMemory;
use gx_class_inet::{InetClass, InetOp, InetQuery};
use gx_class_ltree::{LtreeClass, LtreeQuery};
use gx_class_range::{RangeClass, RangeQuery};
use gx_class_scalar::{ScalarClass, ScalarOp, ScalarQuery};
use gx_class_sets::{HstoreClass, HstoreQuery};
use gx_gist::{GistClass, OnBytes};
use gx_hstore::Hstore;
use gx_inet::Inet;
use gx_ltree::{LtreeOp, Path};
use gx_range::{Range, RangeKind, RangeOp};
use gx_scalar::Scalar;
use std::alloc::Global;

/// An odd number, so that different numbers are mixed to different ones.
const SEED: u32 = 2_654_435_761;

/// A class with a value for each number.
pub trait Sampled: OnBytes {
    /// The value of this number. None where there is no memory.
    fn sample(&self, alloc: Global, number: u32) -> Option<Self::Value>
        ensures { IfSome result (λ value. Self.valid_value self.now value) };

    /// The query that holds of this value.
    fn point(&self, value: Self::Value) -> Self::Query
        requires { Self.valid_value self.now value }
        ensures { Self.valid_query self.now result };
}

/// A number that tells nothing of its neighbours'.
fn mixed(number: u32) -> u32 {
    let product = number.wrapping_mul(SEED);
    product ^ (product >> 15)
}

impl Sampled for ScalarClass {
    fn sample(&self, alloc: Global, number: u32) -> Option<Scalar> {
        let text = format!(in alloc; "{}", mixed(number) >> 1).ok()?;
        Scalar::read(alloc, self.kind, &text).ok()
    }

    fn point(&self, value: Scalar) -> ScalarQuery {
        ScalarQuery {
            op: ScalarOp::Equal,
            operand: value,
        }
    }
}

impl Sampled for RangeClass {
    fn sample(&self, alloc: Global, number: u32) -> Option<Range> {
        let lower = mixed(number) >> 2;
        let upper = lower + 1 + number % 1000;
        let text = format!(in alloc; "[{lower},{upper})").ok()?;
        Range::read(alloc, RangeKind::Int8, &text).ok()
    }

    fn point(&self, value: Range) -> RangeQuery {
        RangeQuery::Range {
            op: RangeOp::Equal,
            operand: value,
        }
    }
}

impl Sampled for InetClass {
    fn sample(&self, _alloc: Global, number: u32) -> Option<Inet> {
        Some(Inet {
            v6: false,
            mask: 32,
            address: u128::from(mixed(number)),
        })
    }

    fn point(&self, value: Inet) -> InetQuery {
        InetQuery {
            op: InetOp::Equal,
            operand: value,
        }
    }
}

impl<const N: usize> Sampled for LtreeClass<N> {
    fn sample(&self, alloc: Global, number: u32) -> Option<Path> {
        let at = mixed(number);
        let text = format!(in alloc; "t{}.c{}.n{number}", at % 10, at % 1000).ok()?;
        Path::read(alloc, &text).ok()
    }

    fn point(&self, value: Path) -> LtreeQuery {
        LtreeQuery::Path {
            op: LtreeOp::Equal,
            operand: value,
        }
    }
}

impl<const N: usize> Sampled for HstoreClass<N> {
    fn sample(&self, alloc: Global, number: u32) -> Option<Hstore> {
        let at = mixed(number);
        let text = format!(in alloc; "k{}=>{}, id=>{number}", at % 10, at % 1000).ok()?;
        Hstore::read(alloc, &text).ok()
    }

    fn point(&self, value: Hstore) -> HstoreQuery {
        HstoreQuery::Contains(value)
    }
}
