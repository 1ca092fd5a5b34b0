//! The top call.

ghost use Rattle.std.specs.Prelude.{◌≡◌, ◌⊎◌, ℕ, ◌≤◌, ◌++◌, map, Err};
ghost use Rattle.std.specs.String.{string_bytes};
ghost use Rattle.gx_words.specs.Causes.{Rose};
ghost use Rattle.gx_run.specs.Lines.{IsDiskKept, broken_line};
ghost use Rattle.gx_run.specs.Outcomes.{Outcome, OfFile, OfTry};
ghost use Rattle.gx_run.specs.Statuses.{status_of, IsWithout};
ghost use Rattle.gx_run.specs.Words.{command_of};

use crate::attempt::run_in_memory;
use crate::fatal::answer_broken;
use crate::halt::Halt;
use crate::init::init;
use crate::stop::Stop;
use crate::top::run_on_file;
use crate::words::{Command, read_words};
use gx_disk::Host;
use gx_engine::Execute;
use gx_io::Source;
use gx_pages::Steps;
use std::alloc::Global;
use std::sync::ledger::Ledger;

/// Does what the words say, and gives the status. The words `init FILE` make an empty database, `run FILE` run the
/// script of the source on the database of the host's disk, and `try` on a fresh database in memory.
///
/// | Status | Meaning |
/// |---|---|
/// | 0 | the script was read to its end, and every statement accepted; the database was made |
/// | 1 | the script was read to its end, and some statement refused |
/// | 2 | the words are none of those named here |
/// | 3 | the disk failed |
/// | 4 | the source failed, or an answer failed |
/// | 5 | there was no memory |
/// | 6 | the disk holds no database, or a broken one; or `init` found bytes in the area Pages |
/// | 7 | the script has more than 1,073,741,824 bytes |
///
/// After a failure of the source, and past the greatest length, the statements that a `;` ends have been run.
pub fn run<E: Execute, S: Source, H: Host, L: Ledger>(
    alloc: Global,
    words: &[String],
    source: &mut S,
    host: &mut H,
    steps: &mut Steps<L>,
) -> u8
    // What was done, by the words.
    ensures outcome { Outcome S.Source H.Disk (command_of (map string_bytes words.now)) steps.old steps.new source.old source.new host.old host.new result }

    // The causes of failures, told or not.
    ensures disk_rose { result ≡ 3 → Rose (H.faults host.old) (H.faults host.new) }
    ensures rose { result ≡ 4 → Rose (S.faults source.old) (S.faults source.new) ⊎ Rose (H.said host.old).faults (H.said host.new).faults }
{
    let Some(command) = read_words(words) else {
        return 2;
    };
    match command {
        Command::Init { overwrite } => init(host, overwrite),
        Command::Run => run_file::<E, _, _, _>(alloc, source, host, steps),
        Command::Try => run_try::<E, _, _, _>(alloc, source, host, steps),
    }
}

// Runs the script on the database of the disk.
fn run_file<E: Execute, S: Source, H: Host, L: Ledger>(
    alloc: Global,
    source: &mut S,
    host: &mut H,
    steps: &mut Steps<L>,
) -> u8
    ensures outcome { OfFile S.Source H.Disk steps.old steps.new source.old source.new host.old host.new result }
    ensures disk_rose { result ≡ 3 → Rose (H.faults host.old) (H.faults host.new) }
    ensures rose { result ≡ 4 → Rose (S.faults source.old) (S.faults source.new) ⊎ Rose (H.said host.old).faults (H.said host.new).faults }
{
    let end = run_on_file::<E, _, _, _>(alloc, source, host, steps);
    finish(host, end)
}

// Runs the script on an empty database in memory.
fn run_try<E: Execute, S: Source, H: Host, L: Ledger>(
    alloc: Global,
    source: &mut S,
    host: &mut H,
    steps: &mut Steps<L>,
) -> u8
    ensures outcome { OfTry S.Source H.Disk steps.old steps.new source.old source.new host.old host.new result }
    ensures rose { result ≡ 4 → Rose (S.faults source.old) (S.faults source.new) ⊎ Rose (H.said host.old).faults (H.said host.new).faults }
{
    let end = run_in_memory::<E, _, _, _>(alloc, source, host, steps);
    finish(host, end)
}

// The status of a run's end. Where a page is broken, the line that says so is answered first.
fn finish<H: Host>(host: &mut H, end: Result<bool, Halt>) -> u8
    ensures same { IsWithout end → (result ≡ status_of end) × (host.new ≡ host.old) }
    ensures disk { IsDiskKept H.Disk host.old host.new }
    ensures counted { (H.said host.old).faults ≤ (H.said host.new).faults }
    ensures broken { (page expected found : ℕ) → end ≡ Err (Halt.Stopped (Stop.Broken page expected found))
        → ((result ≡ 6) × (H.tells → (H.said host.new).bytes ≡ (H.said host.old).bytes ++ broken_line page expected found)) ⊎ ((result ≡ 4) × Rose (H.said host.old).faults (H.said host.new).faults) }
{
    match end {
        Ok(false) => 0,
        Ok(true) => 1,
        Err(Halt::Stopped(Stop::Disk)) => 3,
        Err(Halt::Stopped(Stop::Answer)) => 4,
        Err(Halt::Stopped(Stop::Memory)) => 5,
        Err(
            Halt::Stopped(
                Stop::Broken {
                    page,
                    expected,
                    found,
                },
            ),
        ) => match answer_broken(host, page, expected, found) {
            Ok(()) => 6,
            Err(_) => 4,
        },
        Err(Halt::Source) => 4,
        Err(Halt::Full) => 7,
    }
}
