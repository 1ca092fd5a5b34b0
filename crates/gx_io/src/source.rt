//! What a source promises.

ghost use Rattle.std.specs.Prelude.{◌≡◌, ℕ, ◌≤◌, List, length, drop, IfOk, OnErr};
ghost use Rattle.gx_words.specs.Causes.{FailsWith};
ghost use Rattle.gx_io.specs.Source.{IsFront};

use crate::Failed;

/// Bytes that come one read after another, until they end or a read fails.
pub trait Source {
    // Holds where the source tells its bytes; a real stream doesn't.
    ghost tells: { Type 0 };

    // The bytes that are left to read.
    ghost told: { Self → List ℕ };

    // How many reads failed, at most 2^64 - 1.
    ghost faults: { Self → ℕ };

    /// Moves bytes from the front of what is left into the buffer, and says how many. With room in the
    /// buffer 0 means the end. A read that fails takes nothing.
    fn read(&mut self, into: &mut [u8]) -> Result<usize, Failed>
        ensures room { IfOk result (λ n. n ≤ length into.old) }
        ensures taken { IfOk result (λ n. tells → told self.new ≡ drop n (told self.old)) }
        ensures front { IfOk result (λ n. tells → IsFront (told self.old) into.new n (length into.old)) }
        ensures kept { OnErr result (tells → told self.new ≡ told self.old) }
        ensures cause { FailsWith (faults self.old) (faults self.new) result };
}
