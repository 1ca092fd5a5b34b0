//! What both classes say of queries.

ghost use Rattle.std.specs.Prelude.{◌≡◌, IfOk};
ghost use Rattle.gx_gin_items.specs.Tests.{unless_empty};
ghost use Rattle.gx_gin_arrays.specs.Tests.{IsQuery, wanted, mode, answer};

use crate::IntQuery;
use crate::numbers::items_of;
use gx_bytes::NoMemory;
use gx_gin::{Mode, Wanted};
use gx_gin_items::{all_found, maybe, some_found, sure};
use gx_gist::Test;
use gx_intarr::IntArray;
use std::alloc::Global;

/// The items that a query wants, and the rows that it looks at.
pub fn wanted_of(alloc: Global, query: &IntQuery) -> Result<Wanted, NoMemory>
    ensures items { IfOk result (λ made. made.items ≡ wanted query.now) }
    ensures mode { IfOk result (λ made. made.mode ≡ mode query.now) }
{
    let mode = mode_of(query);
    let items = match query {
        IntQuery::Overlaps(other)
        | IntQuery::Contains(other)
        | IntQuery::Within(other)
        | IntQuery::Equal(other) => items_of(alloc, other.items())?,
        IntQuery::Formula(query) => query.wanted(alloc)?,
    };
    Ok(Wanted { items, mode })
}

fn mode_of(query: &IntQuery) -> Mode
    ensures { result ≡ mode query.now }
{
    match query {
        IntQuery::Overlaps(_) => Mode::Default,
        IntQuery::Contains(other) => unless_empty(Mode::All, other),
        IntQuery::Within(_) => Mode::IncludeEmpty,
        IntQuery::Equal(other) => unless_empty(Mode::IncludeEmpty, other),
        IntQuery::Formula(query) => {
            if query.holds_of_none() {
                Mode::All
            } else {
                Mode::Default
            }
        }
    }
}

/// This mode for an empty operand, else Default.
fn unless_empty(mode: Mode, operand: &IntArray) -> Mode
    ensures { result ≡ unless_empty mode operand.now }
{
    match operand.items() {
        [] => mode,
        _ => Mode::Default,
    }
}

/// What flags of the wanted items say of a query.
pub fn answer_of(query: &IntQuery, found: &[bool]) -> Test
    requires { IsQuery query.now }
    ensures { result ≡ answer query.now found.now }
{
    match query {
        IntQuery::Overlaps(_) => sure(some_found(found)),
        IntQuery::Contains(_) => sure(all_found(found)),
        IntQuery::Within(_) => Test::Maybe,
        IntQuery::Equal(_) => maybe(all_found(found)),
        IntQuery::Formula(query) => sure(query.holds_of(found)),
    }
}
