//! The hash FNV-1a on 32 bits.

ghost use Rattle.std.specs.Prelude.{◌≡◌};
ghost use Rattle.gx_bytes.specs.Hash.{hash_from};

/// The prime of FNV-1a on 32 bits.
const PRIME: u32 = 16_777_619;

/// FNV-1a on 32 bits, continued from `start`. The hash of bytes alone starts from 2166136261.
pub fn fnv(start: u32, bytes: &[u8]) -> u32
    ensures { result ≡ hash_from start bytes.now }
{
    bytes.iter().fold(
        start,
        |hash, byte| (hash ^ u32::from(*byte)).wrapping_mul(PRIME),
    )
}
