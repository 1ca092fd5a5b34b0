//! The reader of texts.

ghost use Rattle.std.specs.Prelude.{◌≡◌, ◌≢◌, Ok, Err, None, Some, MatchResult, IfOk};
ghost use Rattle.serde_json.specs.Read.{read};
ghost use Rattle.serde_json.specs.View.{view};
ghost use Rattle.gx_json.specs.Tree.{data_of};
ghost use Rattle.gx_json.specs.Valid.{IsDocument};
ghost use Rattle.gx_json.specs.Text.{AnswersJson};

use crate::convert::document_of;
use crate::document::Json;
use crate::scan::check_text;
use gx_bytes::ValueError;
use serde_json::Value;
use std::alloc::Global;

impl Json {
    /// Reads a document. The fault is that of the first of these checks that fails. Outside strings at most 64
    /// brackets stand open, else TooDeep; each number is written as a whole one, without leading zeros and with
    /// `-` alone as a sign, else NoValue, and has 64 bits, else OutOfRange. `serde_json` reads a value, else
    /// NoValue; at most 64 arrays and objects stand in one another, else TooDeep; its numbers have 64 bits, else
    /// OutOfRange; and no text or key of it holds U+0000, else NoValue.
    pub fn read(alloc: Global, text: &str) -> Result<Json, ValueError>
        ensures answer { MatchResult result (λ j. AnswersJson text.now (Ok (data_of j))) (λ e. AnswersJson text.now (Err e)) }
        ensures valid { IfOk result (λ j. IsDocument (data_of j)) }
    {
        check_text(alloc, text.as_bytes())?;
        let value = parsed(alloc, text)?;
        document_of(alloc, &value)
    }
}

fn parsed(alloc: Global, text: &str) -> Result<Value, ValueError>
    ensures { MatchResult result (λ v. read text.now ≡ Some (view v)) (λ e. e ≢ ValueError.Memory → (e ≡ ValueError.NoValue) × (read text.now ≡ None)) }
{
    match Value::from_str(alloc, text) {
        Ok(value) => Ok(value),
        Err(fault) => {
            if fault.is_memory() {
                Err(ValueError::Memory)
            } else {
                Err(ValueError::NoValue)
            }
        }
    }
}
