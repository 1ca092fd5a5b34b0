//! A run on a file.

ghost use Rattle.std.specs.Prelude.{◌≡◌, ◌≢◌, ℕ, ◌+◌, ◌≤◌, List, Err, IfErr, OnOk, Some};
ghost use Rattle.gx_words.specs.Causes.{Rose};
ghost use Rattle.gx_words.specs.PageMap.{PageMap};
ghost use Rattle.gx_log.specs.Records.{HasMap, count_in};
ghost use Rattle.gx_pager.specs.Openings.{OpenBroken};
ghost use Rattle.gx_model.specs.Database.{Database};
ghost use Rattle.gx_database.specs.Standing.{StandsFor};
ghost use Rattle.gx_model.specs.Runs.{start};
ghost use Rattle.gx_run.specs.Scripts.{Takes};
ghost use Rattle.gx_run.specs.Statuses.{IsWithout};
ghost use Rattle.gx_run.specs.Top.{ScriptHeadline, OpensBroken, stopped_by};

use crate::file::FileDesk;
use crate::halt::Halt;
use crate::script::{LIMIT, run_script};
use crate::stop::Stop;
use gx_disk::Host;
use gx_engine::{Engine, Execute};
use gx_io::Source;
use gx_pager::{Pager, read_file};
use gx_pages::{PageError, Steps};
use std::alloc::Global;
use std::sync::ledger::Ledger;

/// Runs the script of a source on the file of a host.
pub fn run_on_file<E: Execute, S: Source, H: Host, L: Ledger>(
    alloc: Global,
    source: &mut S,
    host: &mut H,
    steps: &mut Steps<L>,
) -> Result<bool, Halt>
    ensures headline { H.tells → (db : Database) (map : PageMap) → HasMap (H.told host.old) map → StandsFor map db
        → IsWithout result × (S.tells → (script : List ℕ) → S.told source.old ≡ script
        → ScriptHeadline H.Disk steps.old steps.new host.old host.new (start db (count_in (map 0))) LIMIT script (S.told source.new) result) }
    ensures rose { result ≡ Err (Halt.Stopped Stop.Disk) → Rose (H.faults host.old) (H.faults host.new) }
    ensures answer_rose { result ≡ Err (Halt.Stopped Stop.Answer) → Rose (H.said host.old).faults (H.said host.new).faults }
    ensures length { S.tells → Takes LIMIT (S.told source.old) (S.told source.new) result }
    ensures source_rose { result ≡ Err Halt.Source → Rose (S.faults source.old) (S.faults source.new) }
    ensures numbers { (page expected found : ℕ) → result ≡ Err (Halt.Stopped (Stop.Broken page expected found)) → expected ≢ found }
    ensures opening { H.tells → (page expected found : ℕ) → OpenBroken (H.told host.old) page expected found → OpensBroken H.Disk host.old host.new result }
    ensures counted { (H.faults host.old ≤ H.faults host.new) × ((H.said host.old).faults ≤ (H.said host.new).faults) × (S.faults source.old ≤ S.faults source.new) }
{
    let opened = match read_file(alloc, host) {
        Ok(opened) => opened,
        Err(error) => return Err(Halt::Stopped(stop_of(error))),
    };
    let pager = Pager::over(host, opened);
    let engine = match Engine::open(alloc, pager) {
        Ok(engine) => engine,
        Err((pager, _)) => {
            let _host = pager.close();
            return Err(Halt::Stopped(Stop::Memory));
        }
    };
    let mut desk = FileDesk { engine };
    let result = run_script::<E, _, _, _>(alloc, source, &mut desk, steps);
    let store = desk.into_store();
    let _host = store.close();
    result
}

/// The cause that an opening ends with.
fn stop_of(error: PageError) -> Stop
    requires { (pages : ℕ) → error ≢ PageError.PageSpace pages }
    ensures { result ≡ stopped_by error }
{
    match error {
        PageError::DiskFault => Stop::Disk,
        PageError::Memory => Stop::Memory,
        PageError::Broken {
            page,
            expected,
            found,
        } => Stop::Broken {
            page,
            expected,
            found,
        },
        PageError::PageSpace { pages: _ } => unreachable!(),
    }
}
