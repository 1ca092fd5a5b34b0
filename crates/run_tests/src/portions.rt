//! Sources that give their bytes in small portions.

use gx_io::{Failed, MemorySource, Source};

/// A source that gives no more than so many bytes a read.
#[derive(Drop)]
pub struct Portions {
    pub source: MemorySource,
    pub most: usize,
}

impl Source for Portions {
    ghost tells = { Unit {0} };

    ghost told = { λ s. s.source.left };

    ghost faults = { λ s. s.source.faults };

    fn read(&mut self, into: &mut [u8]) -> Result<usize, Failed> {
        let n = into.len().min(self.most.max(1));
        self.source.read(&mut into[..n])
    }
}
