//! Keys from bytes.

ghost use Rattle.std.specs.Prelude.{◌≡◌, ◌≢◌, ◌∷◌, ◌++◌, ℕ, Bool, List, length, MatchOption, IfOk};
ghost use Rattle.gx_bytes.specs.Varints.{field_bytes};
ghost use Rattle.gx_ltree.specs.Text.{printed};
ghost use Rattle.gx_sig.specs.BitSets.{IsSignatureLength, IsSignature};
ghost use Rattle.gx_class_ltree.specs.declared.key.Part.{Part};
ghost use Rattle.gx_class_ltree.specs.Keys.{IsPart};
ghost use Rattle.gx_class_ltree.specs.Spellings.{flag, texts_bytes, ReadsTo};

use crate::parts::{compare_parts, is_short};
use crate::{LtreeKey, Part};
use gx_bytes::{NoMemory, field};
use gx_ltree::Path;
use gx_sig::Sig;
use std::alloc::Global;

/// The texts of both paths, whether they go on, and the bytes of the signature.
#[derive(Clone, Copy, Drop)]
struct Texts<'a> {
    low: &'a [u8],
    low_cut: bool,
    high: &'a [u8],
    high_cut: bool,
    sig: &'a [u8],
}

/// The key with these bytes.
pub fn key_from<const N: usize>(
    alloc: Global,
    bytes: &[u8],
) -> Result<Option<LtreeKey<N>>, NoMemory>
    requires { IsSignatureLength N }
    ensures { IfOk result (ReadsTo N bytes.now) }
{
    let Some(texts) = texts_from(bytes) else {
        return Ok(None);
    };
    let Some(sig) = sig_from(texts.sig) else {
        return Ok(None);
    };
    let Some(low) = part_from(alloc, texts.low, texts.low_cut)? else {
        return Ok(None);
    };
    let Some(high) = part_from(alloc, texts.high, texts.high_cut)? else {
        return Ok(None);
    };
    if compare_parts(&low, &high).is_gt() {
        return Ok(None);
    }
    Ok(Some(LtreeKey { low, high, sig }))
}

/// The signature with these bytes, if there are `N`.
fn sig_from<const N: usize>(bytes: &[u8]) -> Option<Sig<N>>
    requires { IsSignatureLength N }
    ensures { MatchOption result (length bytes.now ≢ N) (λ sig. IsSignature N sig × (sig ≡ bytes.now)) }
{
    Sig::from(bytes)
}

/// The part with this text, if a path of at most 600 bytes has it.
fn part_from(alloc: Global, text: &[u8], cut: bool) -> Result<Option<Part>, NoMemory>
    ensures { IfOk result (λ found. MatchOption found ((p : Part) → IsPart p → text.now ≡ printed p.path → ⊥) (λ p. IsPart p × (p.cut ≡ cut) × (text.now ≡ printed p.path))) }
{
    let Some(path) = Path::decode(alloc, text)? else {
        return Ok(None);
    };
    if !is_short(&path) {
        return Ok(None);
    }
    Ok(Some(Part { path, cut }))
}

fn texts_from(bytes: &[u8]) -> Option<Texts<'_>>
    ensures { MatchOption result ((low high sig : List ℕ) (low_cut high_cut : Bool) → bytes.now ≡ texts_bytes low low_cut high high_cut sig → ⊥) (λ t. bytes.now ≡ texts_bytes t.low.now t.low_cut t.high.now t.high_cut t.sig.now) }
{
    let Some((low, low_cut, behind)) = text_from(bytes) else {
        return None;
    };
    let Some((high, high_cut, sig)) = text_from(behind) else {
        return None;
    };
    Some(Texts {
        low,
        low_cut,
        high,
        high_cut,
        sig,
    })
}

/// A field and a byte 0 or 1, and the bytes behind them.
fn text_from(bytes: &[u8]) -> Option<(&[u8], bool, &[u8])>
    ensures { MatchOption result ((text rest : List ℕ) (cut : Bool) → bytes.now ≡ field_bytes text ++ flag cut ∷ rest → ⊥) (λ x. bytes.now ≡ field_bytes x.0.now ++ flag x.1 ∷ x.2.now) }
{
    let Some((text, length)) = field(bytes) else {
        return None;
    };
    let (_, behind) = bytes.split_at(length);
    let Some((cut, rest)) = flag_from(behind) else {
        return None;
    };
    Some((text, cut, rest))
}

/// What the first byte says, and the bytes behind it.
fn flag_from(bytes: &[u8]) -> Option<(bool, &[u8])>
    ensures { MatchOption result ((cut : Bool) (rest : List ℕ) → bytes.now ≡ flag cut ∷ rest → ⊥) (λ x. bytes.now ≡ flag x.0 ∷ x.1.now) }
{
    match bytes {
        [0, rest @ ..] => Some((false, rest)),
        [1, rest @ ..] => Some((true, rest)),
        _ => None,
    }
}
