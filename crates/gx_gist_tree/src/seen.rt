//! Pages that a walk has seen.

ghost use Rattle.std.specs.Prelude.{◌≡◌, [], ◌∷◌, ◌++◌, ◌≢◌, IfOk, true, false};
ghost use Rattle.std.specs.List.{AllByRecursion};

use std::alloc::{AllocError, Global};
use std::marker::Model;

/// The pages that a walk has seen, each once.
#[derive(Drop)]
pub struct Seen {
    pages: Vec<u64>,
}

impl Model for Seen {
    ghost use Rattle.std.specs.Prelude.{List, ℕ};

    ghost Value = { List ℕ };

    ghost view = { λ s. s.pages.items };
}

impl Seen {
    /// None yet.
    pub fn new(alloc: Global) -> Seen
        ensures { result ≡ [] }
    {
        Seen {
            pages: Vec::new(alloc),
        }
    }

    /// Adds a page. False where it was seen before.
    pub fn add(&mut self, page: u64) -> Result<bool, AllocError>
        ensures added { IfOk result (λ fresh. fresh ≡ true → self.new ≡ self.old ++ page ∷ []) }
        ensures met { IfOk result (λ fresh. fresh ≡ false → AllByRecursion (λ other. page ≢ other) self.old → ⊥) }
    {
        if self.pages.contains(&page) {
            return Ok(false);
        }
        self.pages.push(page)?;
        Ok(true)
    }
}
