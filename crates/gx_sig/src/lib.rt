//! Signatures of a fixed number of bytes, as sets of bits. A hash stands for the bit that is its remainder by the number of bits.
#![tactic(auto)]

ghost use Rattle.std.specs.Prelude.{◌≡◌, ◌≢◌, ◌↔◌, ℕ, ◌+◌, ◌*◌, ◌%◌, ◌<◌, List, length, replicate, IfSome, IsNone, IsTrue, ◌⊎◌};
ghost use Rattle.gx_sig.specs.BitSets.{HasBit, with_bit, both, differing, IsSignatureLength, OneSpelling, WithBitHas, BothHave, AreSignatures};

use std::marker::Model;

/// A set of `8 * N` bits. `N` is one of 4, 8, 16, 28, 32, 64, 128 and 252.
#[derive(Drop)]
pub struct Sig<const N: usize> {
    bytes: [u8; N],
}

impl<const N: usize> Model for Sig<N> {
    ghost Value = { List ℕ };

    ghost view = { λ s. s.bytes };

    ghost invariant = { λ _. IsSignatureLength N };
}

impl<const N: usize> Sig<N> {
    /// No bit.
    pub fn empty() -> Self
        requires { IsSignatureLength N }
        ensures length { length result ≡ N }
        ensures value { result ≡ replicate N 0 }
        ensures bits { (b : ℕ) → HasBit result b → ⊥ }
    {
        Sig { bytes: [0; N] }
    }

    /// Adds the bit of a hash.
    pub fn set(&mut self, hash: u32)
        ensures length { length self.new ≡ N }
        ensures value { self.new ≡ with_bit self.old (hash % (8 * N)) }
        ensures bits { (b : ℕ) → HasBit self.new b ↔ ((b ≡ hash % (8 * N)) ⊎ HasBit self.old b) }
    {
        let bit = self.bit(hash);
        let byte = self.bytes[bit / 8];
        self.bytes[bit / 8] = byte | (1 << (bit % 8));
    }

    /// Tells whether the bit of a hash is there.
    pub fn has(&self, hash: u32) -> bool
        ensures { IsTrue result ↔ HasBit self.now (hash % (8 * N)) }
    {
        let bit = self.bit(hash);
        (self.bytes[bit / 8] >> (bit % 8)) & 1 == 1
    }

    /// The bits of both.
    pub fn union(&self, other: &Self) -> Self
        ensures length { length result ≡ N }
        ensures value { result ≡ both self.now other.now }
        ensures bits { (b : ℕ) → HasBit result b ↔ (HasBit self.now b ⊎ HasBit other.now b) }
    {
        let mut bytes = [0; N];
        for k in 0..N {
            bytes[k] = self.bytes[k] | other.bytes[k];
        }
        Sig { bytes }
    }

    /// Tells whether each bit of the other is here too.
    pub fn contains(&self, other: &Self) -> bool
        ensures { IsTrue result ↔ ((b : ℕ) → HasBit other.now b → HasBit self.now b) }
    {
        for k in 0..N {
            if self.bytes[k] | other.bytes[k] != self.bytes[k] {
                return false;
            }
        }
        true
    }

    /// How many bits are in one of the two alone.
    pub fn distance(&self, other: &Self) -> u32
        ensures { result ≡ differing self.now other.now (8 * N) }
    {
        let mut bits = 0;
        for k in 0..N {
            bits += (self.bytes[k] ^ other.bytes[k]).count_ones();
        }
        bits
    }

    /// The bytes, bit 0 as the lowest of the first.
    pub fn bytes(&self) -> &[u8]
        ensures value { result.now ≡ self.now }
        ensures length { length result.now ≡ N }
    {
        &self.bytes
    }

    /// The set with these bytes, if there are `N`.
    pub fn from(bytes: &[u8]) -> Option<Self>
        requires { IsSignatureLength N }
        ensures some { IfSome result (λ sig. sig ≡ bytes.now) }
        ensures none { IsNone result ↔ (length bytes.now ≢ N) }
    {
        let bytes = bytes.as_array::<N>()?;
        Some(Sig { bytes: *bytes })
    }

    fn bit(&self, hash: u32) -> usize
        ensures value { result ≡ hash % (8 * N) }
        ensures below { result < 8 * N }
    {
        let _ = &self.bytes;
        hash as usize % (8 * N)
    }
}

/// A set of bits has one spelling of a given length.
pub fn one_spelling()
    ensures { OneSpelling }
{}

/// Which bits changed bytes have, and that they are still a signature.
pub fn bits_of_bytes()
    ensures with_bit { WithBitHas }
    ensures both { BothHave }
    ensures signatures { AreSignatures }
{}
