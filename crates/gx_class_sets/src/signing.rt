//! Signatures of sets.

ghost use Rattle.std.specs.Prelude.{◌≡◌, length, replicate, map};
ghost use Rattle.gx_sig.specs.BitSets.{IsSignatureLength};
ghost use Rattle.gx_class_sets.specs.Signatures.{hash_of, sign};

use gx_sig::Sig;

/// The hash of a number: its 32 bits without a sign.
pub fn hash_of(number: i32) -> u32
    ensures { result ≡ hash_of number }
{
    number.cast_unsigned()
}

/// The signature of these numbers.
pub fn sign<const N: usize>(numbers: &[i32]) -> Sig<N>
    requires { IsSignatureLength N }
    ensures { result ≡ sign N (map hash_of numbers.now) }
{
    let mut sig = Sig::empty();
    for number in numbers {
        sig.set(hash_of(*number));
    }
    sig
}
