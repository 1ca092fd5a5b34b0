//! Standard input.

ghost use Rattle.std.specs.Prelude.{[]};

use crate::{Failed, Source};
use std::io::Read;

/// Standard input as a source. It tells nothing of what is to come.
#[derive(Drop)]
pub struct StdSource<'r, R> {
    rt: &'r R,
    faults: u64,
}

impl<'r, R: Input> StdSource<'r, R> {
    pub fn new(rt: &'r R) -> StdSource<'r, R> {
        StdSource { rt, faults: 0 }
    }
}

impl<R: Input> Source for StdSource<'_, R> {
    ghost tells = { ⊥ };

    ghost told = { λ _. [] };

    ghost faults = { λ s. s.faults };

    fn read(&mut self, into: &mut [u8]) -> Result<usize, Failed> {
        match self.rt.reader().read(into) {
            Ok(n) => Ok(n),
            Err(_) => {
                self.faults = self.faults.saturating_add(1);
                Err(Failed)
            }
        }
    }
}
