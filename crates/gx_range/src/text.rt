//! Ranges as text.

ghost use Rattle.std.specs.Prelude.{◌≡◌, ◌↔◌, ◌++◌, ℕ, ℤ, Bool, List, [], ◌∷◌, codes, IsTrue, OnOk, Result, Option, MatchOption, MatchResult, true};
ghost use Rattle.gx_bytes.specs.declared.error.ValueError.{ValueError};
ghost use Rattle.gx_bytes.specs.Blanks.{core_of};
ghost use Rattle.gx_range.specs.declared.range.Range.{Range};
ghost use Rattle.gx_range.specs.declared.range.RangeKind.{RangeKind};
ghost use Rattle.gx_range.specs.Values.{IsRange, fits};
ghost use Rattle.gx_range.specs.Texts.{IsEmptyWord, opening, closing, Begins, IsForm, SpellsRange, AnswersRange, RefusesBegins, RefusesForm, bound_text, element_text, printed};

use crate::bounds::bound_of;
use crate::steps::{Form, range_of};
use crate::{Range, RangeKind};
use gx_bytes::{Bytes, NoMemory, ValueError, print_day, print_whole, trimmed};
use std::alloc::Global;

impl Range {
    /// Reads a range: `empty`, or two bounds in brackets, of which a square one takes its bound in.
    /// A bound that isn't written is none. The first fault by place is answered: out of range where a
    /// bound is one that the type doesn't have, else no value. No memory is taken.
    pub fn read(_alloc: Global, kind: RangeKind, text: &str) -> Result<Range, ValueError>
        ensures { AnswersRange kind (core_of text.now) result }
    {
        let core = trimmed(text.as_bytes());
        if core.eq_ignore_ascii_case(b"empty") {
            return Ok(Range::Empty);
        }
        whole_range(kind, core)
    }
}

fn whole_range(kind: RangeKind, core: &[u8]) -> Result<Range, ValueError>
    requires { IsEmptyWord core.now → ⊥ }
    ensures { AnswersRange kind core.now result }
{
    let (form, after) = form_of(kind, core)?;
    let range = range_of(kind, form)?;
    if !after.is_empty() {
        return Err(ValueError::NoValue);
    }
    Ok(range)
}

/// The brackets and bounds at the front of the core, and what follows.
fn form_of(kind: RangeKind, core: &[u8]) -> Result<(Form, &[u8]), ValueError>
    ensures { MatchResult result (λ found. IsForm kind core.now found.0 found.1.now) (RefusesForm kind core.now) }
{
    let (lower_closed, lower, rest) = begun(kind, core)?;
    let (upper, behind) = bound_of(kind, rest)?;
    match closed(behind) {
        Some((upper_closed, after)) => Ok((
            Form {
                lower_closed,
                lower,
                upper,
                upper_closed,
            },
            after,
        )),
        None => Err(ValueError::NoValue),
    }
}

/// The opening bracket, the lower bound and the comma at the front of the core, and the rest.
fn begun(kind: RangeKind, core: &[u8]) -> Result<(bool, Option<i64>, &[u8]), ValueError>
    ensures { MatchResult result (λ found. Begins kind core.now found.0 found.1 found.2.now) (RefusesBegins kind core.now) }
{
    let Some((lower_closed, bytes)) = opened(core) else {
        return Err(ValueError::NoValue);
    };
    let (lower, behind) = bound_of(kind, bytes)?;
    match behind_comma(behind) {
        Some(rest) => Ok((lower_closed, lower, rest)),
        None => Err(ValueError::NoValue),
    }
}

fn opened(core: &[u8]) -> Option<(bool, &[u8])>
    ensures { MatchOption result ((closed : Bool) (rest : List ℕ) → core.now ≡ opening closed ∷ rest → ⊥) (λ x. core.now ≡ opening x.0 ∷ x.1.now) }
{
    match core {
        [b'[', rest @ ..] => Some((true, rest)),
        [b'(', rest @ ..] => Some((false, rest)),
        _ => None,
    }
}

fn closed(bytes: &[u8]) -> Option<(bool, &[u8])>
    ensures { MatchOption result ((closed : Bool) (rest : List ℕ) → bytes.now ≡ closing closed ∷ rest → ⊥) (λ x. bytes.now ≡ closing x.0 ∷ x.1.now) }
{
    match bytes {
        [b']', rest @ ..] => Some((true, rest)),
        [b')', rest @ ..] => Some((false, rest)),
        _ => None,
    }
}

fn behind_comma(bytes: &[u8]) -> Option<&[u8]>
    ensures { MatchOption result ((rest : List ℕ) → bytes.now ≡ 44 ∷ rest → ⊥) (λ rest. bytes.now ≡ 44 ∷ rest.now) }
{
    match bytes {
        [b',', rest @ ..] => Some(rest),
        _ => None,
    }
}
