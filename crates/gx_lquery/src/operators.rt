//! Whether a path matches a query (`~`), or some of a list of queries (`?`). The work of one query is the number of items times the number of labels, each
//! step one look at an item's variants; two rows of one byte a label are kept.

ghost use Rattle.std.specs.Prelude.{◌≡◌, ◌+◌, ◌<◌, ◌≤◌, ◌^◌, length, IfOk, IsTrue, ◌↔◌, Any};
ghost use Rattle.gx_lquery.specs.Matching.{IsAtMost, MatchesVariant, MatchesItem, MatchesPath, MatchesAny};
ghost use Rattle.gx_lquery.specs.Places.{IsFirstRow, IsNextRow, IsRun, IsLast, EndsGroup};

use crate::query::{Lqueries, Lquery, LqueryItem};
use crate::variant::Variant;
use gx_bytes::NoMemory;
use gx_ltree::Path;
use std::alloc::Global;

impl Lquery {
    /// Whether the path can be cut into consecutive groups, one for each item, each of a length that
    /// the item allows and of labels that match it.
    pub fn matches(&self, alloc: Global, path: &Path) -> Result<bool, NoMemory>
        ensures { IfOk result (λ answer. IsTrue answer ↔ MatchesPath self.now.items path.now) }
    {
        let items = self.items.as_slice();
        let mut row = first_row(alloc, path.count())?;
        for item in items {
            row = next_row(alloc, item, path, row.as_slice())?;
        }
        Ok(row[path.count()])
    }
}

impl Lqueries {
    /// Whether the path matches some of the queries.
    pub fn matches(&self, alloc: Global, path: &Path) -> Result<bool, NoMemory>
        ensures { IfOk result (λ answer. IsTrue answer ↔ MatchesAny self.now path.now) }
    {
        for query in self.as_slice() {
            if query.matches(alloc, path)? {
                return Ok(true);
            }
        }
        Ok(false)
    }
}

/// Which places no item reaches: the first alone.
fn first_row(alloc: Global, count: usize) -> Result<Vec<bool>, NoMemory>
    ensures { IfOk result (λ row. IsFirstRow count row.items) }
{
    let mut row = Vec::new(alloc);
    row.push(true)?;
    for _ in 0..count {
        row.push(false)?;
    }
    Ok(row)
}

/// Which places one more item reaches, from those that the items before it reach.
fn next_row(
    alloc: Global,
    item: &LqueryItem,
    path: &Path,
    row: &[bool],
) -> Result<Vec<bool>, NoMemory>
    requires { length row.now ≡ length path.now + 1 }
    ensures { IfOk result (λ next. IsNextRow item.now path.now row.now next.items) }
{
    let mut next = Vec::new(alloc);
    let mut start = 0;
    let mut last = None;
    for at in 0..row.len() {
        last = last_open(row, usize::from(item.least), at, last);
        next.push(group_ends(start, last, at, item.most))?;
        start = run_start(item, path, at, start);
    }
    Ok(next)
}

/// The first place from which on all labels before place `at + 1` match the item.
fn run_start(item: &LqueryItem, path: &Path, at: usize, start: usize) -> usize
    requires room { at + 1 < 2 ^ 64 }
    requires run { at ≤ length path.now → IsRun item.now path.now start at }
    ensures { at < length path.now → IsRun item.now path.now result (at + 1) }
{
    match path.label(at) {
        Some(label) if !item_matches(item, label) => at + 1,
        _ => start,
    }
}

/// The last open place from which a group of at least `least` labels may end at `at`.
fn last_open(row: &[bool], least: usize, at: usize, last: Option<usize>) -> Option<usize>
    requires { IsLast row.now least last at }
    ensures { IsLast row.now least result (at + 1) }
{
    if least <= at && at - least < row.len() && row[at - least] {
        Some(at - least)
    } else {
        last
    }
}

/// Whether a group ends at `at`, from the two places that decide it.
fn group_ends(start: usize, last: Option<usize>, at: usize, most: Option<u16>) -> bool
    ensures { IsTrue result ↔ EndsGroup start last at most }
{
    match last {
        None => false,
        Some(from) => start <= from && from <= at && is_at_most(at - from, most),
    }
}

fn is_at_most(count: usize, most: Option<u16>) -> bool
    ensures { IsTrue result ↔ IsAtMost count most }
{
    match most {
        None => true,
        Some(most) => count <= usize::from(most),
    }
}

/// Whether the label matches the item.
fn item_matches(item: &LqueryItem, label: &[u8]) -> bool
    ensures { IsTrue result ↔ MatchesItem item.now label.now }
{
    if item.star {
        return true;
    }
    some_variant(item.variants.as_slice(), label) != item.negated
}

fn some_variant(variants: &[Variant], label: &[u8]) -> bool
    ensures { IsTrue result ↔ Any (λ v. MatchesVariant v label.now) variants.now }
{
    variants.iter().any(|variant| variant.matches(label))
}
