//! Tests of keys.

ghost use Rattle.std.specs.Prelude.{◌≡◌, true, IfOk};
ghost use Rattle.gx_ltxtquery.specs.Operators as queries;
ghost use Rattle.gx_class_ltree.specs.Tests.{leaf_answer, inner_answer};

use crate::LtreeKey;
use crate::tests_of_labels::{inner_formula, leaf_formula, maybe, queries_may, query_may};
use crate::tests_of_paths::{path_may, sure, test_cut};
use gx_bytes::NoMemory;
use gx_gist::Test;
use gx_ltree::Path;
use gx_ltxtquery::LtreeQuery;
use std::alloc::Global;

/// What the key of one path says of a query.
pub fn test_leaf<const N: usize>(
    alloc: Global,
    key: &LtreeKey<N>,
    query: &LtreeQuery,
) -> Result<Test, NoMemory>
    ensures { IfOk result (λ test. test ≡ leaf_answer N key.now.low.path key.now.low.cut key.now.sig query.now) }
{
    if key.low.cut {
        Ok(test_part(key, query))
    } else {
        let holds = holds_of(alloc, query, &key.low.path)?;
        Ok(sure(holds))
    }
}

/// The same for a path that goes on behind its part.
fn test_part<const N: usize>(key: &LtreeKey<N>, query: &LtreeQuery) -> Test
    ensures { result ≡ leaf_answer N key.now.low.path true key.now.sig query.now }
{
    match query {
        LtreeQuery::Path { op, operand } => test_cut(key, *op, operand),
        LtreeQuery::Lquery(query) => maybe(query_may(&key.sig, query)),
        LtreeQuery::Lqueries(queries) => maybe(queries_may(&key.sig, queries)),
        LtreeQuery::Words(query) => leaf_formula(&key.sig, &query.formula),
    }
}

/// What a key above the leaves says of a query.
pub fn test_inner<const N: usize>(key: &LtreeKey<N>, query: &LtreeQuery) -> Test
    ensures { result ≡ inner_answer N key.now.low.path key.now.high.path key.now.sig query.now }
{
    match query {
        LtreeQuery::Path { op, operand } => maybe(path_may(key, *op, operand)),
        LtreeQuery::Lquery(query) => maybe(query_may(&key.sig, query)),
        LtreeQuery::Lqueries(queries) => maybe(queries_may(&key.sig, queries)),
        LtreeQuery::Words(query) => inner_formula(&key.sig, &query.formula),
    }
}

/// Tells whether the query holds of the path.
fn holds_of(alloc: Global, query: &LtreeQuery, path: &Path) -> Result<bool, NoMemory>
    ensures { IfOk result (λ holds. holds ≡ queries.holds query.now path.now) }
{
    query.holds(alloc, path)
}
