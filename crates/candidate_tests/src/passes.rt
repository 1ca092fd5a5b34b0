//! Whether a class's own test rules a value out.

ghost use Rattle.std.specs.Prelude.{◌≡◌, length, IfOk};

use gx_bytes::NoMemory;
use gx_gin::{GinClass, Items, Mode};
use gx_gin_items::{place_of, some_found};
use gx_gist::{GistClass, Test};
use std::alloc::Global;

/// Whether the leaf key of a value doesn't rule it out.
pub fn passes_leaf<C: GistClass>(
    alloc: Global,
    class: &C,
    value: &C::Value,
    query: &C::Query,
) -> Result<bool, NoMemory>
    requires class { C.valid class.now }
    requires value { C.valid_value class.now value.now }
    requires query { C.valid_query class.now query.now }
{
    let key = class.leaf(alloc, value)?;
    let test = class.test(alloc, &key, true, query)?;
    Ok(test != Test::No)
}

/// Whether a value is in reach of a query, and its items don't rule it out.
pub fn passes_items<C: GinClass>(
    alloc: Global,
    class: &C,
    value: &C::Value,
    query: &C::Query,
) -> Result<bool, NoMemory>
    requires class { C.valid class.now }
    requires value { C.valid_value class.now value.now }
    requires query { C.valid_query class.now query.now }
{
    let items = class.items(alloc, value)?;
    let wanted = class.wanted(alloc, query)?;
    let found = flags_of(alloc, &wanted.items, &items)?;
    let some = some_found(found.as_slice());
    let reached = match wanted.mode {
        Mode::Default => some,
        Mode::IncludeEmpty => some || items.len() == 0,
        Mode::All => true,
    };
    let test = class.passes(query, found.as_slice());
    Ok(reached && test != Test::No)
}

/// For each wanted item, whether it is among these.
fn flags_of(alloc: Global, wanted: &Items, items: &Items) -> Result<Vec<bool>, NoMemory>
    ensures { IfOk result (λ found. length found.items ≡ length wanted.now) }
{
    let mut found = Vec::new(alloc);
    for at in 0..wanted.len() {
        let there = match wanted.get(at) {
            Some(item) => place_of(items, item) < items.len(),
            None => false,
        };
        found.push(there)?;
    }
    Ok(found)
}
