//! The reader of queries.

ghost use Rattle.std.specs.Prelude.{◌≡◌, true, ℕ, List, [], Option, None, Some, Bool, IfOk, MatchOption, IsTrue, ◌↔◌, option_map};
ghost use Rattle.std.specs.List.{AllZip, AllByRecursion};
ghost use Rattle.gx_lquery.specs.declared.variant.Variant.{Variant};
ghost use Rattle.gx_lquery.specs.declared.query.LqueryItem.{LqueryItem};
ghost use Rattle.gx_lquery.specs.Query.{IsLquery};
ghost use Rattle.gx_lquery.specs.Text.{split, is_mark, SpellsVariant, IsCount, SpellsLeast, SpellsMost, SpellsLimits, SpellsBraces, SpellsCount, has_bang, without_bang, SpellsBody, SpellsWith, SpellsItem, AnswersLquery, cut};

use crate::query::{Lquery, LqueryItem, LqueryItems};
use crate::variant::{Variant, Variants};
use gx_bytes::{Bytes, NoMemory, ValueError, cut_at, is_numeral, numeral_value};
use gx_ltree::take_label;
use std::alloc::Global;

impl Lquery {
    /// Reads items with dots between them, without white space. NoValue is the only error but the want
    /// of memory.
    pub fn read(alloc: Global, text: &str) -> Result<Lquery, ValueError>
        ensures answers { AnswersLquery text.now result }
        ensures valid { IfOk result (λ query. IsLquery query) }
    {
        match items_of(alloc, text.as_bytes()) {
            Ok(Some(items)) => Ok(Lquery { items }),
            Ok(None) => Err(ValueError::NoValue),
            Err(_) => Err(ValueError::Memory),
        }
    }
}

fn items_of(alloc: Global, text: &[u8]) -> Result<Option<LqueryItems>, NoMemory>
    ensures { IfOk result (λ read. MatchOption read ((items : List LqueryItem) → AllZip SpellsItem (split 46 text.now) items → ⊥) (λ items. AllZip SpellsItem (split 46 text.now) items)) }
{
    let mut items = LqueryItems::new(alloc);
    let mut rest = text;
    while let Some((piece, after)) = cut_at(rest, b'.') {
        let Some(item) = item_of(alloc, piece)? else {
            return Ok(None);
        };
        items.push(item)?;
        rest = after;
    }
    let Some(item) = item_of(alloc, rest)? else {
        return Ok(None);
    };
    items.push(item)?;
    Ok(Some(items))
}

fn item_of(alloc: Global, text: &[u8]) -> Result<Option<LqueryItem>, NoMemory>
    ensures { IfOk result (λ read. MatchOption read ((item : LqueryItem) → SpellsItem text.now item → ⊥) (λ item. SpellsItem text.now item)) }
{
    match cut_at(text, b'{') {
        None => item_with(alloc, text, None),
        Some((body, count)) => item_with(alloc, body, Some(count)),
    }
}

fn item_with(
    alloc: Global,
    body: &[u8],
    count: Option<&[u8]>,
) -> Result<Option<LqueryItem>, NoMemory>
    ensures { IfOk result (λ read. MatchOption read ((item : LqueryItem) → SpellsWith body.now (option_map (λ text. text.now) count.entry) item → ⊥) (λ item. SpellsWith body.now (option_map (λ text. text.now) count.entry) item)) }
{
    let star = body == b"*".as_slice();
    let Some((least, most)) = limits_of(star, count) else {
        return Ok(None);
    };
    let Some((negated, variants)) = words_of(alloc, star, body)? else {
        return Ok(None);
    };
    Ok(Some(LqueryItem {
        star,
        negated,
        variants,
        least,
        most,
    }))
}

fn words_of(alloc: Global, star: bool, body: &[u8]) -> Result<Option<(bool, Variants)>, NoMemory>
    ensures { IfOk result (λ read. MatchOption read ((negated : Bool) (variants : List Variant) → SpellsBody star body.now negated variants → ⊥) (λ x. SpellsBody star body.now x.0 x.1)) }
{
    if star {
        return Ok(Some((false, Variants::new(alloc))));
    }
    let negated = starts_with_bang(body);
    let words = if negated { &body[1..] } else { body };
    match variants_of(alloc, words)? {
        None => Ok(None),
        Some(variants) => Ok(Some((negated, variants))),
    }
}

fn starts_with_bang(body: &[u8]) -> bool
    ensures { result ≡ has_bang body.now }
{
    !body.is_empty() && body[0] == b'!'
}

fn variants_of(alloc: Global, text: &[u8]) -> Result<Option<Variants>, NoMemory>
    ensures { IfOk result (λ read. MatchOption read ((variants : List Variant) → AllZip SpellsVariant (split 124 text.now) variants → ⊥) (λ variants. AllZip SpellsVariant (split 124 text.now) variants)) }
{
    let mut variants = Variants::new(alloc);
    let mut rest = text;
    while let Some((piece, after)) = cut_at(rest, b'|') {
        let Some(variant) = variant_of(alloc, piece)? else {
            return Ok(None);
        };
        variants.push(variant)?;
        rest = after;
    }
    let Some(variant) = variant_of(alloc, rest)? else {
        return Ok(None);
    };
    variants.push(variant)?;
    Ok(Some(variants))
}

fn variant_of(alloc: Global, text: &[u8]) -> Result<Option<Variant>, NoMemory>
    ensures { IfOk result (λ read. MatchOption read ((variant : Variant) → SpellsVariant text.now variant → ⊥) (λ variant. SpellsVariant text.now variant)) }
{
    let Some((label, marks)) = take_label(text) else {
        return Ok(None);
    };
    if !are_marks(marks) {
        return Ok(None);
    }
    Ok(Some(Variant {
        label: Bytes::from_slice(alloc, label)?,
        prefix: marks.contains(&b'*'),
        caseless: marks.contains(&b'@'),
    }))
}

fn are_marks(bytes: &[u8]) -> bool
    ensures { IsTrue result ↔ AllByRecursion (λ c. is_mark c ≡ true) bytes.now }
{
    bytes.iter().all(|byte| *byte == b'@' || *byte == b'*')
}

fn limits_of(star: bool, count: Option<&[u8]>) -> Option<(u16, Option<u16>)>
    ensures { MatchOption result ((least : ℕ) (most : Option ℕ) → SpellsCount star (option_map (λ text. text.now) count.entry) least most → ⊥) (λ x. SpellsCount star (option_map (λ text. text.now) count.entry) x.0 x.1) }
{
    match count {
        None if star => Some((0, None)),
        None => Some((1, Some(1))),
        Some(text) => braces_of(text),
    }
}

fn braces_of(text: &[u8]) -> Option<(u16, Option<u16>)>
    ensures { MatchOption result ((least : ℕ) (most : Option ℕ) → SpellsBraces text.now least most → ⊥) (λ x. SpellsBraces text.now x.0 x.1) }
{
    match text {
        [inner @ .., b'}'] => inner_limits(inner),
        _ => None,
    }
}

fn inner_limits(inner: &[u8]) -> Option<(u16, Option<u16>)>
    ensures { MatchOption result ((least : ℕ) (most : Option ℕ) → SpellsLimits (cut 44 inner.now) inner.now least most → ⊥) (λ x. SpellsLimits (cut 44 inner.now) inner.now x.0 x.1) }
{
    match cut_at(inner, b',') {
        None => both_of(inner),
        Some((low, high)) => range_of(low, high),
    }
}

fn both_of(text: &[u8]) -> Option<(u16, Option<u16>)>
    ensures { MatchOption result ((least : ℕ) (most : Option ℕ) → SpellsLimits None text.now least most → ⊥) (λ x. SpellsLimits None text.now x.0 x.1) }
{
    match number_of(text) {
        None => None,
        Some(both) => Some((both, Some(both))),
    }
}

fn range_of(low: &[u8], high: &[u8]) -> Option<(u16, Option<u16>)>
    ensures { MatchOption result ((least : ℕ) (most : Option ℕ) → SpellsLimits (Some (low.now, high.now)) [] least most → ⊥) (λ x. SpellsLimits (Some (low.now, high.now)) [] x.0 x.1) }
{
    if low.is_empty() && high.is_empty() {
        return None;
    }
    let Some(least) = least_of(low) else {
        return None;
    };
    let Some(most) = most_of(high) else {
        return None;
    };
    match most {
        Some(most) if most < least => None,
        _ => Some((least, most)),
    }
}

fn least_of(text: &[u8]) -> Option<u16>
    ensures { MatchOption result ((n : ℕ) → SpellsLeast text.now n → ⊥) (λ n. SpellsLeast text.now n) }
{
    if text.is_empty() {
        return Some(0);
    }
    number_of(text)
}

fn most_of(text: &[u8]) -> Option<Option<u16>>
    ensures { MatchOption result ((most : Option ℕ) → SpellsMost text.now most → ⊥) (λ most. SpellsMost text.now most) }
{
    if text.is_empty() {
        return Some(None);
    }
    let most = number_of(text)?;
    Some(Some(most))
}

/// The number up to 65,535 that digits write; it may have leading zeros.
fn number_of(digits: &[u8]) -> Option<u16>
    ensures { MatchOption result ((n : ℕ) → IsCount digits.now n → ⊥) (λ n. IsCount digits.now n) }
{
    if !is_numeral(digits) {
        return None;
    }
    let value = numeral_value(digits)?;
    if value > 65535 {
        return None;
    }
    Some(value as u16)
}
