//! Signatures of labels.

ghost use Rattle.std.specs.Prelude.{◌≡◌};
ghost use Rattle.std.specs.List.{list_all};
ghost use Rattle.gx_sig.specs.BitSets.{IsSignatureLength};
ghost use Rattle.gx_class_ltree.specs.Keys.{label_hash, labels_key};
ghost use Rattle.gx_class_ltree.specs.Tests.{has_label, has_labels};

use gx_bytes::{Bytes, fnv};
use gx_sig::Sig;

/// Where the hash of a label begins.
const SEED: u32 = 2_166_136_261;

/// The hash of a label in lower case.
pub fn label_hash(label: &[u8]) -> u32
    ensures { result ≡ label_hash label.now }
{
    let mut hash = SEED;
    for byte in label {
        hash = fnv(hash, &[byte.to_ascii_lowercase()]);
    }
    hash
}

/// The signature of these labels.
pub fn sign_labels<const N: usize>(labels: &[Bytes]) -> Sig<N>
    requires { IsSignatureLength N }
    ensures { result ≡ labels_key N labels.now }
{
    let mut sig = Sig::empty();
    for label in labels {
        sig.set(label_hash(label.as_slice()));
    }
    sig
}

/// Tells whether the label may be there.
pub fn has_label<const N: usize>(sig: &Sig<N>, label: &[u8]) -> bool
    ensures { result ≡ has_label N sig.now label.now }
{
    sig.has(label_hash(label))
}

/// Tells whether all of these labels may be there.
pub fn has_labels<const N: usize>(sig: &Sig<N>, labels: &[Bytes]) -> bool
    ensures { result ≡ has_labels N sig.now labels.now }
{
    labels.iter().all(
        |label| -> bool
            ensures { result ≡ has_label N sig.entry.now label.now }
        { has_label(sig, label.as_slice()) },
    )
}
