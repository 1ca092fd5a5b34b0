//! Splits over a class of numbers, and places in the order of keys.

ghost use Rattle.std.specs.Prelude.{◌≡◌, length, IfOk};
ghost use Rattle.gx_scalar.specs.declared.scalar.ScalarKind.TheVariants as kinds;
ghost use Rattle.gx_class_scalar.specs.Keys.{IsKey};
ghost use Rattle.class_tests.specs.ValidKeys.{AreKeys};

use gx_bytes::NoMemory;
use gx_class_scalar::{ScalarClass, ScalarKey};
use gx_gist::{GistClass, Keys, Sizes, picksplit, places_by_rank};
use gx_scalar::{Scalar, ScalarKind};
use std::alloc::Global;
use std::test::Fail;

/// A leaf key for each number.
fn keys_of(alloc: Global, numbers: &[i32]) -> Result<Keys<ScalarKey>, NoMemory>
    ensures many { IfOk result (λ keys. length keys ≡ length numbers.now) }
    ensures valid { IfOk result AreKeys }
{
    let mut keys = Keys::new(alloc);
    for number in numbers {
        let key = key_of(alloc, *number)?;
        keys.push(key)?;
    }
    Ok(keys)
}

fn key_of(alloc: Global, number: i32) -> Result<ScalarKey, NoMemory>
    ensures { IfOk result (IsKey kinds.Int4) }
{
    let class = ScalarClass {
        kind: ScalarKind::Int4,
    };
    class.leaf(alloc, &Scalar::Int4(number))
}

#[test]
fn a_cut_at_half(rt: HostRuntime) -> Result<(), Fail> {
    let alloc = rt.alloc();
    let class = ScalarClass {
        kind: ScalarKind::Int4,
    };
    let keys = keys_of(alloc, &[3, 1, 4, 2])?;
    let sizes = Sizes::from_slice(alloc, &[10, 10, 10, 10])?;
    let sides = picksplit(alloc, &class, &keys, &sizes)?;
    assert_eq!(rt; sides.left.as_slice(), [1, 3].as_slice());
    assert_eq!(rt; sides.right.as_slice(), [0, 2].as_slice());
    assert_eq!(rt; keys.len(), 4);
    Ok(())
}

#[test]
fn places_from_the_least(rt: HostRuntime) -> Result<(), Fail> {
    let alloc = rt.alloc();
    let none: [ScalarKey; 0] = [];
    assert_eq!(rt; places_by_rank(alloc, &none)?.len(), 0);
    let keys = [
        ScalarKey::Int4 { lo: 5, hi: 5 },
        ScalarKey::Int4 { lo: 3, hi: 7 },
        ScalarKey::Int4 { lo: -1, hi: 9 },
        ScalarKey::Int4 { lo: 3, hi: 4 },
        ScalarKey::Int4 { lo: 3, hi: 7 },
    ];
    assert_eq!(rt;
        places_by_rank(alloc, &keys)?.as_slice(),
        [2, 3, 1, 4, 0].as_slice()
    );
    Ok(())
}
