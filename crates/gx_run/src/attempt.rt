//! A run on a database in memory.

ghost use Rattle.std.specs.Prelude.{◌≡◌, ◌≢◌, ℕ, ◌≤◌, List, Err};
ghost use Rattle.gx_words.specs.Causes.{Rose};
ghost use Rattle.gx_model.specs.Database.{Database};
ghost use Rattle.gx_database.specs.Standing.{StandsFor};
ghost use Rattle.gx_model.specs.Runs.{start};
ghost use Rattle.gx_pages.specs.Databases.{empty_pages};
ghost use Rattle.gx_run.specs.Lines.{IsDiskKept};
ghost use Rattle.gx_run.specs.Scripts.{Takes};
ghost use Rattle.gx_run.specs.Statuses.{IsWithout};
ghost use Rattle.gx_run.specs.Try.{TryHeadline};

use crate::halt::Halt;
use crate::memory::MemoryDesk;
use crate::script::{LIMIT, run_script};
use crate::stop::Stop;
use gx_disk::Host;
use gx_engine::{Engine, Execute};
use gx_io::Source;
use gx_pages::{MemoryPages, Steps};
use std::alloc::Global;
use std::sync::ledger::Ledger;

/// Runs the script of a source on a fresh database in memory.
pub fn run_in_memory<E: Execute, S: Source, H: Host, L: Ledger>(
    alloc: Global,
    source: &mut S,
    host: &mut H,
    steps: &mut Steps<L>,
) -> Result<bool, Halt>
    ensures headline { H.tells → (db : Database) → StandsFor empty_pages db → IsWithout result × (S.tells → (script : List ℕ) → S.told source.old ≡ script
        → TryHeadline (start db 2) steps.old steps.new (H.said host.old).bytes (H.said host.new).bytes LIMIT script (S.told source.new) result) }
    ensures disk { IsDiskKept H.Disk host.old host.new }
    ensures no_disk { result ≢ Err (Halt.Stopped Stop.Disk) }
    ensures answer_rose { result ≡ Err (Halt.Stopped Stop.Answer) → Rose (H.said host.old).faults (H.said host.new).faults }
    ensures length { S.tells → Takes LIMIT (S.told source.old) (S.told source.new) result }
    ensures source_rose { result ≡ Err Halt.Source → Rose (S.faults source.old) (S.faults source.new) }
    ensures counted { ((H.said host.old).faults ≤ (H.said host.new).faults) × (S.faults source.old ≤ S.faults source.new) }
{
    let store = match MemoryPages::new(alloc) {
        Ok(store) => store,
        Err(_) => return Err(Halt::Stopped(Stop::Memory)),
    };
    let engine = match Engine::open(alloc, store) {
        Ok(engine) => engine,
        Err(_) => return Err(Halt::Stopped(Stop::Memory)),
    };
    let mut desk = MemoryDesk { engine, host };
    let result = run_script::<E, _, _, _>(alloc, source, &mut desk, steps);
    let MemoryDesk {
        engine: _engine,
        host: _host,
    } = desk;
    result
}
