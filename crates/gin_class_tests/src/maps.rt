//! Maps: gin_hstore_ops.

ghost use Rattle.std.specs.Prelude.{IfOk};
ghost use Rattle.gx_hstore.specs.Map.{IsHstore};
ghost use Rattle.gx_gin_maps.specs.Tests.{IsQuery};

use crate::candidates::{bytes_of, is_candidate};
use gx_bytes::{Bytes, ValueError};
use gx_gin::GinClass;
use gx_gin_maps::{GinHstoreClass, HstoreQuery};
use gx_gist::Test;
use gx_hstore::Hstore;
use gx_intarr::Texts;
use std::alloc::Global;
use std::test::Fail;

const VALUES: [&str; 4] = ["a=>1", "a=>NULL", "", "b=>1"];

pub fn map_of(alloc: Global, text: &str) -> Result<Hstore, ValueError>
    ensures { IfOk result IsHstore }
{
    Hstore::read(alloc, text)
}

pub fn query_of(alloc: Global, sign: &str, text: &str) -> Result<HstoreQuery, ValueError>
    ensures { IfOk result IsQuery }
{
    Ok(match sign {
        "@>" => HstoreQuery::Contains(map_of(alloc, text)?),
        "?" => HstoreQuery::Has(bytes_of(alloc, text)?),
        "?&" => HstoreQuery::HasAll(Texts::read(alloc, text)?),
        _ => HstoreQuery::HasAny(Texts::read(alloc, text)?),
    })
}

/// Whether a map is a candidate of gin_hstore_ops.
fn is_found(alloc: Global, sign: &str, text: &str, value: &str) -> Result<bool, ValueError> {
    let query = query_of(alloc, sign, text)?;
    let value = map_of(alloc, value)?;
    match is_candidate(alloc, &GinHstoreClass, &value, &query) {
        Ok(is) => Ok(is),
        Err(_) => Err(ValueError::Memory),
    }
}

#[test]
fn maps_in_reach(rt: HostRuntime) -> Result<(), Fail> {
    let alloc = rt.alloc();
    let rows = [
        ("@>", "a=>1", [true, false, false, false]),
        ("@>", "a=>NULL", [false, true, false, false]),
        ("@>", "", [true, true, true, true]),
        ("?", "a", [true, true, false, false]),
        ("?&", "{a,b}", [false, false, false, false]),
        ("?|", "{a,b}", [true, true, false, true]),
        ("?&", "{}", [true, true, true, true]),
        ("?|", "{}", [false, false, false, false]),
    ];
    for (sign, text, want) in rows {
        for at in 0..4 {
            assert_eq!(rt;
                is_found(alloc, sign, text, VALUES[at])?,
                want[at],
                "{sign} {text}"
            );
        }
    }
    Ok(())
}

/// An item of 1,900 bytes is kept whole, and a longer one is `H`, its first byte and its hash: the test isn't sure then.
#[test]
fn long_keys(rt: HostRuntime) -> Result<(), Fail> {
    let alloc = rt.alloc();
    let mut key = Bytes::new(alloc);
    for _ in 0..1_899 {
        key.push(b'k')?;
    }
    let rows = [(1_900, b'K', Test::Yes), (6, b'H', Test::Maybe)];
    for (length, first, test) in rows {
        let query = HstoreQuery::Has(key.copy(alloc)?);
        let wanted = GinHstoreClass.wanted(alloc, &query)?;
        match wanted.items.get(0) {
            Some(item) => {
                assert_eq!(rt; item.len(), length);
                assert_eq!(rt; item.first(), Some(&first));
            }
            None => assert!(rt; false),
        }
        assert_eq!(rt; GinHstoreClass.passes(&query, &[true]), test);
        key.push(b'k')?;
    }
    Ok(())
}
