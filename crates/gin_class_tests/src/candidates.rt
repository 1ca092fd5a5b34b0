//! Which values a query's items lead to.

ghost use Rattle.std.specs.Prelude.{◌≡◌, length, IfOk};

use gx_bytes::{Bytes, NoMemory, ValueError};
use gx_gin::{GinClass, Items, Mode};
use gx_gin_items::{place_of, some_found};
use gx_gist::Test;
use std::alloc::Global;

/// Tells whether a value is in reach of a query, and its items don't rule it out.
pub fn is_candidate<C: GinClass>(
    alloc: Global,
    class: &C,
    value: &C::Value,
    query: &C::Query,
) -> Result<bool, NoMemory>
    requires class { C.valid class.now }
    requires value { C.valid_value class.now value.now }
    requires query { C.valid_query class.now query.now }
{
    let items = class.items(alloc, value)?;
    let wanted = class.wanted(alloc, query)?;
    let found = flags_of(alloc, &wanted.items, &items)?;
    let some = some_found(found.as_slice());
    let reached = match wanted.mode {
        Mode::Default => some,
        Mode::IncludeEmpty => some || items.len() == 0,
        Mode::All => true,
    };
    let test = class.passes(query, found.as_slice());
    Ok(reached && !matches!(test, Test::No))
}

/// The bytes of a text.
pub fn bytes_of(alloc: Global, text: &str) -> Result<Bytes, ValueError> {
    match Bytes::from_slice(alloc, text.as_bytes()) {
        Ok(bytes) => Ok(bytes),
        Err(_) => Err(ValueError::Memory),
    }
}

/// For each wanted item, whether it is among these.
fn flags_of(alloc: Global, wanted: &Items, items: &Items) -> Result<Vec<bool>, NoMemory>
    ensures { IfOk result (λ found. length found.items ≡ length wanted.now) }
{
    let mut found = Vec::new(alloc);
    for at in 0..wanted.len() {
        let there = match wanted.get(at) {
            Some(item) => place_of(items, item) < items.len(),
            None => false,
        };
        found.push(there)?;
    }
    Ok(found)
}
