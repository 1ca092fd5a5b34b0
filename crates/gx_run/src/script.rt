//! The run of a script, as it comes.

ghost use Rattle.std.specs.Prelude.{◌≡◌, ◌≢◌, ℕ, ◌≤◌, false, List, [], ◌∷◌, ◌++◌, OnOk, Err};
ghost use Rattle.gx_words.specs.Causes.{Rose};
ghost use Rattle.gx_lexer.specs.Cut.{cut};
ghost use Rattle.gx_lexer.specs.Feeding.{Fed};
ghost use Rattle.gx_model.specs.Runs.{State};
ghost use Rattle.gx_run.specs.Scripts.{RanScript, RanMore, Takes};
ghost use Rattle.gx_run.specs.Moves.{Ran};
ghost use Rattle.gx_run.specs.Statuses.{IsWithout};

use crate::desk::Desk;
use crate::halt::Halt;
use crate::pieces::{either, run_pieces};
use crate::stop::Stop;
use gx_engine::Execute;
use gx_io::{Failed, Source};
use gx_lexer::{Cutter, Pieces};
use gx_pages::Steps;
use std::alloc::Global;
use std::sync::ledger::Ledger;

/// The greatest length of a script, in bytes.
pub const LIMIT: usize = 1_073_741_824;

const CHUNK: usize = 16_384;

/// Runs the script of a source: the pieces that have ended before more is read.
pub fn run_script<E: Execute, S: Source, D: Desk, L: Ledger>(
    alloc: Global,
    source: &mut S,
    desk: &mut D,
    steps: &mut Steps<L>,
) -> Result<bool, Halt>
    requires { D.ready desk.old }
    ensures headline { D.tells → (from : State) → D.is_at desk.old from → IsWithout result × (S.tells → (script : List ℕ) → S.told source.old ≡ script
        → RanScript D.moment D.may_have_left_since D.may_leave D.said D.is_at D.emptied steps.old steps.new desk.old desk.new from LIMIT script (S.told source.new) result) }
    ensures length { S.tells → Takes LIMIT (S.told source.old) (S.told source.new) result }
    ensures follows { D.follows desk.old desk.new }
    ensures rose { result ≡ Err (Halt.Stopped Stop.Disk) → D.on_disk × Rose (D.disk_faults desk.old) (D.disk_faults desk.new) }
    ensures answer_rose { result ≡ Err (Halt.Stopped Stop.Answer) → Rose (D.said desk.old).faults (D.said desk.new).faults }
    ensures broken { (page expected found : ℕ) → result ≡ Err (Halt.Stopped (Stop.Broken page expected found)) → expected ≢ found }
    ensures source_rose { result ≡ Err Halt.Source → Rose (S.faults source.old) (S.faults source.new) }
    ensures counted { (D.disk_faults desk.old ≤ D.disk_faults desk.new) × ((D.said desk.old).faults ≤ (D.said desk.new).faults) × (S.faults source.old ≤ S.faults source.new) }
{
    let mut cutter = Cutter::new(alloc);
    let mut buffer = [0u8; CHUNK];
    let mut refused = false;
    let mut taken = 0;
    while taken < LIMIT {
        let room = CHUNK.min(LIMIT - taken);
        match source.read(&mut buffer[..room]) {
            Ok(0) => {
                return match run_rest::<E, _, _>(alloc, cutter, desk, steps) {
                    Ok(one) => Ok(either(refused, one)),
                    Err(stop) => Err(Halt::Stopped(stop)),
                };
            }
            Ok(n) => {
                let one = match run_part::<E, _, _>(alloc, &mut cutter, &buffer[..n], desk, steps) {
                    Ok(one) => one,
                    Err(stop) => return Err(Halt::Stopped(stop)),
                };
                refused = either(refused, one);
                taken += n;
            }
            Err(Failed) => return Err(Halt::Source),
        }
    }
    let mut more = [0u8; 1];
    match source.read(&mut more) {
        Ok(0) => match run_rest::<E, _, _>(alloc, cutter, desk, steps) {
            Ok(one) => Ok(either(refused, one)),
            Err(stop) => Err(Halt::Stopped(stop)),
        },
        Ok(_) => Err(Halt::Full),
        Err(Failed) => Err(Halt::Source),
    }
}

// Feeds some bytes of a script, and runs the pieces that end in them.
fn run_part<E: Execute, D: Desk, L: Ledger>(
    alloc: Global,
    cutter: &mut Cutter,
    bytes: &[u8],
    desk: &mut D,
    steps: &mut Steps<L>,
) -> Result<bool, Stop>
    requires ready { D.ready desk.old }
    requires sound { cutter.old.spoiled ≡ false }
    ensures fed { OnOk result ((fed : List ℕ) → Fed cutter.old fed → Fed cutter.new (fed ++ bytes.now)) }
    ensures sound { OnOk result (cutter.new.spoiled ≡ false) }
    ensures headline { D.tells → (from : State) (fed : List ℕ) → D.is_at desk.old from → Fed cutter.old fed
        → RanMore D.moment D.may_have_left_since D.may_leave D.said D.is_at D.emptied steps.old steps.new desk.old desk.new from fed bytes.now result }
    ensures ready { OnOk result (D.ready desk.new) }
    ensures follows { D.follows desk.old desk.new }
    ensures rose { result ≡ Err Stop.Disk → D.on_disk × Rose (D.disk_faults desk.old) (D.disk_faults desk.new) }
    ensures answer_rose { result ≡ Err Stop.Answer → Rose (D.said desk.old).faults (D.said desk.new).faults }
    ensures broken { (page expected found : ℕ) → result ≡ Err (Stop.Broken page expected found) → expected ≢ found }
    ensures counted { (D.disk_faults desk.old ≤ D.disk_faults desk.new) × ((D.said desk.old).faults ≤ (D.said desk.new).faults) }
{
    let mut pieces = Pieces::new(alloc);
    match cutter.feed(bytes, &mut pieces) {
        Ok(()) => (),
        Err(_) => return Err(Stop::Memory),
    }
    run_pieces::<E, _, _>(desk, pieces.as_slice(), steps)
}

// Runs the last piece.
fn run_rest<E: Execute, D: Desk, L: Ledger>(
    alloc: Global,
    cutter: Cutter,
    desk: &mut D,
    steps: &mut Steps<L>,
) -> Result<bool, Stop>
    requires ready { D.ready desk.old }
    requires sound { cutter.spoiled ≡ false }
    ensures headline { D.tells → (from : State) (fed : List ℕ) → D.is_at desk.old from → Fed cutter fed
        → Ran D.moment D.may_have_left_since D.may_leave D.said D.is_at D.emptied steps.old steps.new desk.old desk.new from ((cut fed).rest ∷ []) result }
    ensures follows { D.follows desk.old desk.new }
    ensures rose { result ≡ Err Stop.Disk → D.on_disk × Rose (D.disk_faults desk.old) (D.disk_faults desk.new) }
    ensures answer_rose { result ≡ Err Stop.Answer → Rose (D.said desk.old).faults (D.said desk.new).faults }
    ensures broken { (page expected found : ℕ) → result ≡ Err (Stop.Broken page expected found) → expected ≢ found }
    ensures counted { (D.disk_faults desk.old ≤ D.disk_faults desk.new) × ((D.said desk.old).faults ≤ (D.said desk.new).faults) }
{
    let mut pieces = Pieces::new(alloc);
    match cutter.finish(&mut pieces) {
        Ok(()) => (),
        Err(_) => return Err(Stop::Memory),
    }
    run_pieces::<E, _, _>(desk, pieces.as_slice(), steps)
}
