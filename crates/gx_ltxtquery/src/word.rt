//! A word of a formula: a label and its marks.

ghost use Rattle.std.specs.Prelude.{◌≡◌, ◌≤◌, ℕ, List, true, IfOk, MatchOption, length, take, drop};
ghost use Rattle.std.specs.List.{AllByRecursion};
ghost use Rattle.gx_lquery.specs.Text.{is_mark};
ghost use Rattle.gx_lquery.specs.declared.variant.Variant.{Variant};
ghost use Rattle.gx_ltxtquery.specs.Words.{StopsMarks, TakesWord};

use gx_bytes::{Bytes, NoMemory};
use gx_lquery::Variant;
use gx_ltree::take_label;
use std::alloc::Global;

/// A label with its marks, and what stands behind them.
pub(crate) fn take_word(alloc: Global, text: &[u8]) -> Result<Option<(Variant, &[u8])>, NoMemory>
    ensures { IfOk result (λ r. MatchOption r ((variant : Variant) (rest : List ℕ) → TakesWord text.now variant rest → ⊥) (λ x. TakesWord text.now x.0 x.1.now)) }
{
    let Some((label, after)) = take_label(text) else {
        return Ok(None);
    };
    let (marks, rest) = after.split_at(marks_length(after));
    let variant = Variant {
        label: Bytes::from_slice(alloc, label)?,
        prefix: marks.contains(&b'*'),
        caseless: marks.contains(&b'@'),
    };
    Ok(Some((variant, rest)))
}

fn marks_length(text: &[u8]) -> usize
    ensures within { result ≤ length text.now }
    ensures run { AllByRecursion (λ c. is_mark c ≡ true) (take result text.now) }
    ensures stops { StopsMarks (drop result text.now) }
{
    let mut length = 0;
    while length < text.len() && (text[length] == b'@' || text[length] == b'*') {
        length += 1;
    }
    length
}
