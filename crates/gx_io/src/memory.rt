//! A source in memory.

ghost use Rattle.std.specs.Prelude.{◌≡◌, ◌==◌, ℕ, ◌+◌, ◌-◌, ◌^◌, ◌≤◌, List, length, drop, min, IfOk, OnOk, OnErr, IsErr, IsTrue, is_err};
ghost use Rattle.std.specs.List.{list_any};
ghost use Rattle.gx_words.specs.Causes.{FailsWith};
ghost use Rattle.gx_io.specs.Source.{IsFront};
ghost use Rattle.gx_io.specs.Memory.{Memory};

use crate::{Failed, Source};
use gx_bytes::NoMemory;
use std::alloc::Global;
use std::marker::Model;

/// A list of bytes as a source. Chosen reads fail, so that tests see what follows from it.
#[derive(Drop)]
pub struct MemorySource {
    bytes: Vec<u8>,
    taken: usize,
    failing: Vec<u64>,
    calls: u64,
    faults: u64,
}

impl Model for MemorySource {
    ghost use Rattle.std.specs.Prelude.{◌≤◌, length, drop};
    ghost use Rattle.gx_io.specs.Memory.{Memory};

    ghost Value = { Memory };

    ghost view = { λ s. record { left = drop s.taken s.bytes.items; failing = s.failing.items; calls = s.calls; faults = s.faults } };

    ghost invariant = { λ s. s.taken ≤ length s.bytes.items };
}

impl MemorySource {
    /// A source of these bytes, whose reads with these numbers, from 1 on, fail.
    pub fn new(alloc: Global, bytes: &[u8], failing: &[u64]) -> Result<MemorySource, NoMemory>
        ensures { IfOk result (λ s. s ≡ record { left = bytes.now; failing = failing.now; calls = 0; faults = 0 }) }
    {
        Ok(MemorySource {
            bytes: Vec::from_slice(alloc, bytes)?,
            taken: 0,
            failing: Vec::from_slice(alloc, failing)?,
            calls: 0,
            faults: 0,
        })
    }
}

impl Source for MemorySource {
    ghost tells = { Unit {0} };

    ghost told = { λ s. s.left };

    ghost faults = { λ s. s.faults };

    fn read(&mut self, into: &mut [u8]) -> Result<usize, Failed>
        ensures room { IfOk result (λ n. n ≤ length into.old) }
        ensures taken { IfOk result (λ n. Unit {0} → self.new.left ≡ drop n self.old.left) }
        ensures front { IfOk result (λ n. Unit {0} → IsFront self.old.left into.new n (length into.old)) }
        ensures kept { OnErr result (Unit {0} → self.new.left ≡ self.old.left) }
        ensures cause { FailsWith self.old.faults self.new.faults result }

        // Exactly the listed reads fail.
        ensures calls { self.new.calls ≡ min (self.old.calls + 1) (2 ^ 64 - 1) }
        ensures listed { is_err result ≡ list_any (λ k. k == self.new.calls) self.old.failing }
        ensures failing { self.new.failing ≡ self.old.failing }
        ensures faults { OnOk result (self.new.faults ≡ self.old.faults) }
    {
        self.calls = self.calls.saturating_add(1);
        if self.failing.contains(&self.calls) {
            self.faults = self.faults.saturating_add(1);
            return Err(Failed);
        }
        let left = &self.bytes.as_slice()[self.taken..];
        let n = left.len().min(into.len());
        into[..n].copy_from_slice(&left[..n]);
        self.taken += n;
        Ok(n)
    }
}
