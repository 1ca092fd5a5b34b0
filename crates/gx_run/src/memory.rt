//! A database in memory.

ghost use Rattle.std.specs.Prelude.{◌≡◌, ℕ, ◌↔◌, false};

use crate::desk::Desk;
use crate::stop::Stop;
use gx_disk::Host;
use gx_engine::{Engine, Execute, Reply};
use gx_io::Failed;
use gx_lexer::Piece;
use gx_pages::{MemoryPages, PageError, Pages, Steps};
use std::sync::ledger::Ledger;

/// An engine over a store in memory, and a host who is answered. The host's disk isn't called.
#[derive(Drop)]
pub struct MemoryDesk<'h, H: Host> {
    pub engine: Engine<MemoryPages>,
    pub host: &'h mut H,
}

impl<'h, H: Host> Desk for MemoryDesk<'h, H> {
    ghost use Rattle.std.proofs.Common.{refl, ◌∙◌};
    ghost use Rattle.gx_words.specs.Image.{Image};
    ghost use Rattle.gx_engine.specs.Engines.{IsIn, HasAtMost};
    ghost use Rattle.gx_engine.specs.declared.engine.Kind.TheVariants.{Idle};

    ghost tells = { H.tells };

    ghost is_at = { λ d s. IsIn ⟦<MemoryPages as Pages>⟧ d.engine.store d.engine.kind s.session × HasAtMost ⟦<MemoryPages as Pages>⟧ d.engine.store s.pages };

    ghost ready = { λ d. d.engine.ended ≡ false };

    ghost idle = { λ d. d.engine.kind ≡ Idle };

    ghost emptied = { λ d. Unit {0} };

    ghost on_disk = { ⊥ };

    ghost said = { λ d. H.said d.host.now };

    ghost disk_faults = { λ d. H.faults d.host.now };

    // Which host it is, and what its disk reads as and may leave.
    ghost follows = { λ a b. (b.host.ghost_name ≡ a.host.ghost_name) × (H.told b.host.now ≡ H.told a.host.now) × (H.faults b.host.now ≡ H.faults a.host.now)
        × ((c : Image) → H.now_may_leave b.host.now c ↔ H.now_may_leave a.host.now c) };

    ghost moment = { λ d. 0 };

    ghost may_leave = { λ d map. ⊥ };

    ghost may_have_left_since = { λ d t m. ⊥ };

    ghost stays = { λ d. (refl, refl, refl, λ c. (λ l. l, λ l. l)) };

    ghost goes_on = { λ a b c x y. (y.0 ∙ x.0, y.1 ∙ x.1, y.2 ∙ x.2, λ i. (λ l. (x.3 i).0 ((y.3 i).0 l), λ l. (y.3 i).1 ((x.3 i).1 l))) };

    ghost left = { λ tells d s at map l. absurd l };

    fn execute<E: Execute, L: Ledger>(
        &mut self,
        piece: &Piece,
        steps: &mut Steps<L>,
    ) -> Result<Reply, Stop> {
        match self.engine.execute::<E, _>(piece, steps) {
            Ok(reply) => Ok(reply),
            Err(PageError::DiskFault) => unreachable!(),
            Err(PageError::Memory) => Err(Stop::Memory),
            Err(
                PageError::Broken {
                    page,
                    expected,
                    found,
                },
            ) => Err(Stop::Broken {
                page,
                expected,
                found,
            }),
            Err(PageError::PageSpace { pages: _ }) => unreachable!(),
        }
    }

    fn answer(&mut self, bytes: &[u8]) -> Result<(), Failed> {
        self.host.answer(bytes)
    }

    fn settle(&mut self, _due: bool) -> Result<(), Failed> {
        Ok(())
    }
}
