//! The text of an address.

ghost use Rattle.std.specs.Prelude.{◌≡◌, ◌≢◌, ℕ, ◌≤◌, ◌<◌, ◌^◌, Bool, MatchOption, IsTrue, ◌↔◌, decimal};
ghost use Rattle.gx_inet.specs.declared.inet.Inet.{Inet};
ghost use Rattle.gx_inet.specs.Value.{width, IsInet};
ghost use Rattle.gx_inet.specs.Text.{SpellsAddress, AnswersInet, IsAddress, HasPlainStart};

use crate::inet::Inet;
use gx_bytes::ValueError;
use std::alloc::Global;
use std::net::IpAddr;

impl Inet {
    /// Reads the text of an address with an optional mask: dotted decimal, or the forms of RFC 4291,
    /// section 2.2, without white space. NoValue is the only error; no memory is taken.
    pub fn read(_alloc: Global, text: &str) -> Result<Inet, ValueError>
        ensures { AnswersInet text.now result }
    {
        match text.split_once('/') {
            None => without_mask(text).ok_or(ValueError::NoValue),
            Some((address, digits)) => with_mask(address, digits).ok_or(ValueError::NoValue),
        }
    }
}

/// The bits of a family's addresses.
pub(crate) fn width_of(v6: bool) -> u8
    ensures { result ≡ width v6 }
{
    if v6 { 128 } else { 32 }
}

/// The address of a text without a mask; its mask is the whole width.
fn without_mask(text: &str) -> Option<Inet>
    ensures { MatchOption result ((v6 : Bool) (address : ℕ) → SpellsAddress v6 text.now address → ⊥) (λ inet. IsInet inet × SpellsAddress inet.v6 text.now inet.address × (inet.mask ≡ width inet.v6)) }
{
    let (v6, address) = address_of(text)?;
    Some(Inet {
        v6,
        mask: width_of(v6),
        address,
    })
}

/// The address of a text before a slash, with the mask behind it.
fn with_mask(address: &str, digits: &str) -> Option<Inet>
    ensures { MatchOption result ((inet : Inet) → SpellsAddress inet.v6 address.now inet.address → digits.now ≡ decimal inet.mask → inet.mask ≤ width inet.v6 → ⊥) (λ inet. IsInet inet × SpellsAddress inet.v6 address.now inet.address × (digits.now ≡ decimal inet.mask)) }
{
    let (v6, address) = address_of(address)?;
    let mask = mask_of(digits)?;
    if mask > width_of(v6) {
        return None;
    }
    Some(Inet { v6, mask, address })
}

/// The address that the whole text stands for, by std's reader.
fn address_of(text: &str) -> Option<(bool, u128)>
    ensures { MatchOption result ((v6 : Bool) (address : ℕ) → SpellsAddress v6 text.now address → ⊥) (λ x. SpellsAddress x.0 text.now x.1 × IsAddress x.0 x.1) }
{
    match IpAddr::parse_ascii(text.as_bytes()) {
        Ok(IpAddr::V4(address)) => Some((false, u128::from(address.to_bits()))),
        Ok(IpAddr::V6(address)) => Some((true, address.to_bits())),
        Err(_) => None,
    }
}

/// The number below 256 that the text writes in decimal without leading zeros.
fn mask_of(digits: &str) -> Option<u8>
    ensures { MatchOption result ((n : ℕ) → n < 2 ^ 8 → digits.now ≢ decimal n) (λ n. digits.now ≡ decimal n) }
{
    if !has_plain_start(digits.as_bytes()) {
        return None;
    }
    digits.parse().ok()
}

/// Whether the text begins as a number without leading zeros may: with no plus, and with no zero before
/// another byte. (std's `parse` takes both.)
fn has_plain_start(digits: &[u8]) -> bool
    ensures { IsTrue result ↔ HasPlainStart digits.now }
{
    if digits.is_empty() || digits[0] == b'+' {
        return false;
    }
    digits[0] != b'0' || digits.len() == 1
}
