//! A database in a file.

ghost use Rattle.std.specs.Prelude.{◌≡◌, false, []};

use crate::desk::Desk;
use crate::stop::Stop;
use gx_engine::{Engine, Execute, Reply};
use gx_io::Failed;
use gx_lexer::Piece;
use gx_pager::Keeper;
use gx_pages::{PageError, Steps};
use std::sync::ledger::Ledger;

/// How many pages may wait before a checkpoint is made.
const WAITING: u64 = 1_024;

/// An engine over a store that stands on a host.
#[derive(Drop)]
pub struct FileDesk<P> {
    pub engine: Engine<P>,
}

impl<P: Keeper> FileDesk<P> {
    /// The store, handed back.
    pub fn into_store(self) -> P
        ensures { result ≡ self.engine.store }
    {
        let FileDesk { engine } = self;
        engine.into_store()
    }
}

impl<P: Keeper> Desk for FileDesk<P> {
    ghost use Rattle.gx_engine.specs.Engines.{IsIn, HasAtMost};
    ghost use Rattle.gx_engine.specs.declared.engine.Kind.TheVariants.{Idle};

    ghost tells = { P.tells };

    ghost is_at = { λ d s. IsIn P.Pages d.engine.store d.engine.kind s.session × HasAtMost P.Pages d.engine.store s.pages };

    ghost ready = { λ d. (d.engine.ended ≡ false) × (P.spoiled d.engine.store ≡ false) };

    ghost idle = { λ d. d.engine.kind ≡ Idle };

    ghost emptied = { λ d. P.counted_records d.engine.store [] };

    ghost on_disk = { Unit {0} };

    ghost said = { λ d. P.said d.engine.store };

    ghost disk_faults = { λ d. P.faults d.engine.store };

    ghost follows = { λ a b. P.follows a.engine.store b.engine.store };

    ghost moment = { λ d. P.moment d.engine.store };

    ghost may_leave = { λ d. P.may_leave d.engine.store };

    ghost may_have_left_since = { λ d. P.may_have_left_since d.engine.store };

    ghost stays = { λ d. P.follows_itself d.engine.store };

    ghost goes_on = { λ a b c. P.follows_on a.engine.store b.engine.store c.engine.store };

    ghost left = { λ tells d s at. at.0.left };

    fn execute<E: Execute, L: Ledger>(
        &mut self,
        piece: &Piece,
        steps: &mut Steps<L>,
    ) -> Result<Reply, Stop> {
        match self.engine.execute::<E, _>(piece, steps) {
            Ok(reply) => Ok(reply),
            Err(PageError::DiskFault) => Err(Stop::Disk),
            Err(PageError::Memory) => Err(Stop::Memory),
            Err(
                PageError::Broken {
                    page,
                    expected,
                    found,
                },
            ) => Err(Stop::Broken {
                page,
                expected,
                found,
            }),
            Err(PageError::PageSpace { pages: _ }) => unreachable!(),
        }
    }

    fn answer(&mut self, bytes: &[u8]) -> Result<(), Failed> {
        let store = self.engine.store_mut();
        store.answer(bytes)
    }

    fn settle(&mut self, due: bool) -> Result<(), Failed> {
        if self.engine.in_block() {
            return Ok(());
        }
        let store = self.engine.store_mut();
        if !due && store.waiting() <= WAITING {
            return Ok(());
        }
        store.checkpoint()
    }
}
