//! Documents: jsonb_ops and jsonb_path_ops.

ghost use Rattle.std.specs.Prelude.{IfOk};
ghost use Rattle.gx_json.specs.Tree.{data_of};
ghost use Rattle.gx_json.specs.Valid.{IsDocument};
ghost use Rattle.gx_gin_documents.specs.Tests.{IsQuery, IsPathQuery};

use crate::candidates::{bytes_of, is_candidate};
use gx_bytes::ValueError;
use gx_gin_documents::{JsonQuery, JsonbClass, JsonbPathClass};
use gx_intarr::Texts;
use gx_json::Json;
use std::alloc::Global;
use std::test::Fail;

const VALUES: [&str; 6] = [
    r#"{"x":{"k":1}}"#,
    r#"{"k":2}"#,
    r#"["k",[1,3]]"#,
    r#"{"a":"k"}"#,
    r#"{"a":{}}"#,
    "[]",
];

pub fn document_of(alloc: Global, text: &str) -> Result<Json, ValueError>
    ensures { IfOk result (λ d. IsDocument (data_of d)) }
{
    Json::read(alloc, text)
}

pub fn query_of(alloc: Global, sign: &str, text: &str) -> Result<JsonQuery, ValueError>
    ensures { IfOk result IsQuery }
{
    Ok(match sign {
        "@>" => JsonQuery::Contains(document_of(alloc, text)?),
        "?" => JsonQuery::Has(bytes_of(alloc, text)?),
        "?&" => JsonQuery::HasAll(Texts::read(alloc, text)?),
        _ => JsonQuery::HasAny(Texts::read(alloc, text)?),
    })
}

pub fn containment(alloc: Global, text: &str) -> Result<JsonQuery, ValueError>
    ensures { IfOk result IsPathQuery }
{
    Ok(JsonQuery::Contains(document_of(alloc, text)?))
}

/// Whether a document is a candidate of jsonb_ops.
fn is_found(alloc: Global, sign: &str, text: &str, value: &str) -> Result<bool, ValueError> {
    let query = query_of(alloc, sign, text)?;
    let value = document_of(alloc, value)?;
    match is_candidate(alloc, &JsonbClass, &value, &query) {
        Ok(is) => Ok(is),
        Err(_) => Err(ValueError::Memory),
    }
}

/// Whether a document is a candidate of jsonb_path_ops.
fn is_found_by_paths(alloc: Global, text: &str, value: &str) -> Result<bool, ValueError> {
    let query = containment(alloc, text)?;
    let value = document_of(alloc, value)?;
    match is_candidate(alloc, &JsonbPathClass, &value, &query) {
        Ok(is) => Ok(is),
        Err(_) => Err(ValueError::Memory),
    }
}

#[test]
fn documents_in_reach(rt: HostRuntime) -> Result<(), Fail> {
    let alloc = rt.alloc();
    let rows = [
        ("?", "k", [true, true, true, false, false, false]),
        ("?|", "{k,a}", [true, true, true, true, true, false]),
        ("?&", "{x,k}", [true, false, false, false, false, false]),
        ("?&", "{}", [true, true, true, true, true, true]),
        ("@>", "[[3]]", [false, false, true, false, false, false]),
        (
            "@>",
            r#"{"a":{}}"#,
            [false, false, false, true, true, false],
        ),
        ("@>", "{}", [true, true, true, true, true, true]),
    ];
    for (sign, text, want) in rows {
        for at in 0..6 {
            assert_eq!(rt;
                is_found(alloc, sign, text, VALUES[at])?,
                want[at],
                "{sign} {text}"
            );
        }
    }
    Ok(())
}

#[test]
fn paths_in_reach(rt: HostRuntime) -> Result<(), Fail> {
    let alloc = rt.alloc();
    let rows = [
        (r#"{"a":{}}"#, [true, true, true, true, true, true]),
        (r#"{"k":2}"#, [false, true, false, false, false, false]),
        (
            r#"{"x":{"k":1}}"#,
            [true, false, false, false, false, false],
        ),
        ("[1]", [false, false, true, false, false, false]),
        (r#""k""#, [false, false, true, false, false, false]),
    ];
    for (text, want) in rows {
        for at in 0..6 {
            assert_eq!(rt;
                is_found_by_paths(alloc, text, VALUES[at])?,
                want[at],
                "{text}"
            );
        }
    }
    Ok(())
}
