//! What the class says of queries.

ghost use Rattle.std.specs.Prelude.{◌≡◌, IfOk};
ghost use Rattle.gx_gin.specs.declared.wanted.Mode.TheVariants as modes;
ghost use Rattle.gx_gin_items.specs.Tests.{unless_empty};
ghost use Rattle.gx_gin_maps.specs.Tests.{wanted, mode, is_met, answer};

use crate::HstoreQuery;
use crate::items_of_maps::{key_item_of, key_items_of, value_items_of};
use crate::lengths::has_long;
use gx_bytes::NoMemory;
use gx_gin::{Mode, Wanted};
use gx_gin_items::{all_found, some_found};
use gx_gist::Test;
use gx_intarr::Texts;
use std::alloc::Global;

/// The items that a query wants, and the rows that it looks at.
pub fn wanted_of(alloc: Global, query: &HstoreQuery) -> Result<Wanted, NoMemory>
    ensures items { IfOk result (λ made. made.items ≡ wanted query.now) }
    ensures mode { IfOk result (λ made. made.mode ≡ mode query.now) }
{
    let mode = mode_of(query);
    let items = match query {
        HstoreQuery::Contains(other) => value_items_of(alloc, other.pairs())?,
        HstoreQuery::Has(key) => key_item_of(alloc, key.as_slice())?,
        HstoreQuery::HasAll(keys) | HstoreQuery::HasAny(keys) => {
            key_items_of(alloc, keys.as_slice())?
        }
    };
    Ok(Wanted { items, mode })
}

fn mode_of(query: &HstoreQuery) -> Mode
    ensures { result ≡ mode query.now }
{
    match query {
        HstoreQuery::Contains(other) => match other.pairs() {
            [] => Mode::All,
            _ => Mode::Default,
        },
        HstoreQuery::HasAll(keys) => all_if_none(keys),
        HstoreQuery::Has(_) | HstoreQuery::HasAny(_) => Mode::Default,
    }
}

/// All rows where there are no keys.
fn all_if_none(keys: &Texts) -> Mode
    ensures { result ≡ unless_empty modes.All keys.now }
{
    if keys.count() == 0 {
        Mode::All
    } else {
        Mode::Default
    }
}

/// What flags of the wanted items say of a query.
pub fn answer_of(query: &HstoreQuery, found: &[bool]) -> Test
    ensures { result ≡ answer query.now found.now }
{
    if !is_met(query, found) {
        return Test::No;
    }
    if has_long(query) {
        Test::Maybe
    } else {
        Test::Yes
    }
}

fn is_met(query: &HstoreQuery, found: &[bool]) -> bool
    ensures { result ≡ is_met query.now found.now }
{
    match query {
        HstoreQuery::HasAny(_) => some_found(found),
        _ => all_found(found),
    }
}
