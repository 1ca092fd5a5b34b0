//! A page of the file.

ghost use Rattle.std.specs.Prelude.{◌≡◌, length, replicate};

use std::marker::Model;

/// A page: 8,192 bytes.
#[derive(Drop)]
pub struct Page {
    bytes: [u8; 8192],
}

impl Model for Page {
    ghost use Rattle.std.specs.Prelude.{List, ℕ};

    ghost Value = { List ℕ };

    ghost view = { λ p. p.bytes };
}

impl Page {
    ghost use Rattle.std.specs.Borrow.{sem};
    ghost use Rattle.gx_pages.specs.Lending.{LendsBytes};

    /// A page of zeros.
    pub fn zero() -> Page
        ensures { result ≡ replicate 8192 0 }
    {
        Page { bytes: [0; 8192] }
    }

    /// The page's bytes.
    pub fn bytes(&self) -> &[u8]
        ensures value { result.now ≡ self.now }
        ensures len { length result.now ≡ 8192 }
    {
        &self.bytes
    }

    /// The page's bytes, to be written.
    pub fn bytes_mut(&mut self) -> &mut [u8]
        ensures* writes_back { sem 𝓛 (LendsBytes self.entry result) }
        ensures value { result.now ≡ self.old }
        ensures len { length result.now ≡ 8192 }
    {
        self.bytes.as_mut_slice()
    }
}
