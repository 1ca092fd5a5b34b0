//! What both classes say of queries.

ghost use Rattle.std.specs.Prelude.{◌≡◌, map, IfOk};
ghost use Rattle.gx_gin.specs.declared.wanted.Mode.TheVariants as modes;
ghost use Rattle.gx_gin_items.specs.Items.{shortened};
ghost use Rattle.gx_gin_items.specs.Tests.{unless_empty};
ghost use Rattle.gx_gin_documents.specs.Tests.{sought, wanted, mode, is_met, answer, path_wanted, path_mode, path_answer};

use crate::JsonQuery;
use crate::items_of_documents::{items_of, key_item_of, key_items_of};
use crate::paths::paths_of;
use gx_bytes::NoMemory;
use gx_gin::{Items, Mode, Strings, Wanted};
use gx_gin_items::{all_found, maybe, some_found};
use gx_gist::Test;
use std::alloc::Global;

/// The items that a query wants of jsonb_ops, and the rows that it looks at.
pub fn wanted_of(alloc: Global, query: &JsonQuery) -> Result<Wanted, NoMemory>
    ensures items { IfOk result (λ made. made.items ≡ wanted query.now) }
    ensures mode { IfOk result (λ made. made.mode ≡ mode query.now) }
{
    let strings = sought(alloc, query)?;
    let mode = mode_of(query, &strings);
    let items = Items::of(strings)?;
    Ok(Wanted { items, mode })
}

/// What a query asks for, kept short.
fn sought(alloc: Global, query: &JsonQuery) -> Result<Strings, NoMemory>
    ensures { IfOk result (λ made. made ≡ map shortened (sought query.now)) }
{
    match query {
        JsonQuery::Contains(other) => items_of(alloc, other),
        JsonQuery::Has(key) => key_item_of(alloc, key.as_slice()),
        JsonQuery::HasAll(keys) | JsonQuery::HasAny(keys) => key_items_of(alloc, keys.as_slice()),
    }
}

/// The rows that a query looks at, by what it asks for.
fn mode_of(query: &JsonQuery, strings: &Strings) -> Mode
    requires { strings.now ≡ map shortened (sought query.now) }
    ensures { result ≡ mode query.now }
{
    match query {
        JsonQuery::Contains(_) | JsonQuery::HasAll(_) => all_if_empty(strings),
        JsonQuery::Has(_) | JsonQuery::HasAny(_) => Mode::Default,
    }
}

/// All rows where there are no strings.
fn all_if_empty(strings: &Strings) -> Mode
    ensures { result ≡ unless_empty modes.All strings.now }
{
    if strings.len() == 0 {
        Mode::All
    } else {
        Mode::Default
    }
}

/// What flags of the items that a query wants of jsonb_ops say of it.
pub fn answer_of(query: &JsonQuery, found: &[bool]) -> Test
    ensures { result ≡ answer query.now found.now }
{
    maybe(is_met(query, found))
}

fn is_met(query: &JsonQuery, found: &[bool]) -> bool
    ensures { result ≡ is_met query.now found.now }
{
    match query {
        JsonQuery::HasAny(_) => some_found(found),
        _ => all_found(found),
    }
}

/// The items that a query wants of jsonb_path_ops, and the rows that it looks at.
pub fn path_wanted_of(alloc: Global, query: &JsonQuery) -> Result<Wanted, NoMemory>
    ensures items { IfOk result (λ made. made.items ≡ path_wanted query.now) }
    ensures mode { IfOk result (λ made. made.mode ≡ path_mode query.now) }
{
    match query {
        JsonQuery::Contains(other) => {
            let strings = paths_of(alloc, other)?;
            let mode = all_if_empty(&strings);
            let items = Items::of(strings)?;
            Ok(Wanted { items, mode })
        }
        _ => Ok(Wanted {
            items: Items::new(alloc),
            mode: Mode::Default,
        }),
    }
}

/// What flags of the items that a query wants of jsonb_path_ops say of it.
pub fn path_answer_of(query: &JsonQuery, found: &[bool]) -> Test
    ensures { result ≡ path_answer query.now found.now }
{
    match query {
        JsonQuery::Contains(_) => maybe(all_found(found)),
        _ => Test::No,
    }
}
