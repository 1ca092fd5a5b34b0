//! The loop over the pieces of a script.

ghost use Rattle.std.specs.Prelude.{◌≡◌, ◌≢◌, ◌⊎◌, ◌↔◌, ℕ, ◌≤◌, ◌+◌, Bool, true, List, [], ◌∷◌, ◌++◌, ◌||◌, length, take, map, IfOk, OnOk, OnErr, IsTrue, Err};
ghost use Rattle.gx_words.specs.Causes.{Rose, FailsWith};
ghost use Rattle.gx_words.specs.PageMap.{PageMap};
ghost use Rattle.gx_lexer.specs.Feeding.{piece_of};
ghost use Rattle.gx_engine.specs.Times.{Between};
ghost use Rattle.gx_database.specs.Standing.{StandsFor};
ghost use Rattle.gx_model.specs.Turns.{TurnCosts};
ghost use Rattle.gx_model.specs.Runs.{State, Done, Does, AreDone, committed_after};
ghost use Rattle.gx_engine.specs.Engines.{reply_of, checkpoint_reply};
ghost use Rattle.gx_run.specs.Moves.{OneOf, Ran};

use crate::desk::Desk;
use crate::stop::Stop;
use gx_engine::{Execute, Reply};
use gx_io::Failed;
use gx_lexer::Piece;
use gx_pages::Steps;
use std::sync::ledger::Ledger;

/// Executes the pieces, and answers each reply by one call before the next piece. Tells whether one was refused.
pub fn run_pieces<E: Execute, D: Desk, L: Ledger>(
    desk: &mut D,
    pieces: &[Piece],
    steps: &mut Steps<L>,
) -> Result<bool, Stop>
    requires { D.ready desk.old }
    ensures headline { D.tells → (from : State) (texts : List (List ℕ)) → D.is_at desk.old from → map piece_of texts ≡ pieces.now
        → Ran D.moment D.may_have_left_since D.may_leave D.said D.is_at D.emptied steps.old steps.new desk.old desk.new from texts result }
    ensures ready { OnOk result (D.ready desk.new) }
    ensures follows { D.follows desk.old desk.new }
    ensures rose { result ≡ Err Stop.Disk → D.on_disk × Rose (D.disk_faults desk.old) (D.disk_faults desk.new) }
    ensures answer_rose { result ≡ Err Stop.Answer → Rose (D.said desk.old).faults (D.said desk.new).faults }
    ensures broken { (page expected found : ℕ) → result ≡ Err (Stop.Broken page expected found) → expected ≢ found }
    ensures counted { (D.disk_faults desk.old ≤ D.disk_faults desk.new) × ((D.said desk.old).faults ≤ (D.said desk.new).faults) }
{
    let mut refused = false;
    let mut rest = pieces;
    while let Some((piece, after)) = rest.split_first() {
        let one = run_piece::<E, _, _>(desk, piece, steps)?;
        refused = either(refused, one);
        rest = after;
    }
    Ok(refused)
}

// Executes a piece, and answers its reply where it has one. Tells whether it was refused.
fn run_piece<E: Execute, D: Desk, L: Ledger>(
    desk: &mut D,
    piece: &Piece,
    steps: &mut Steps<L>,
) -> Result<bool, Stop>
    requires { D.ready desk.old }
    ensures headline { D.tells → (from : State) (text : List ℕ) → D.is_at desk.old from → piece_of text ≡ piece.now
        → Ran D.moment D.may_have_left_since D.may_leave D.said D.is_at D.emptied steps.old steps.new desk.old desk.new from (text ∷ []) result }
    ensures ready { OnOk result (D.ready desk.new) }
    ensures follows { D.follows desk.old desk.new }
    ensures rose { result ≡ Err Stop.Disk → D.on_disk × Rose (D.disk_faults desk.old) (D.disk_faults desk.new) }
    ensures answer_rose { result ≡ Err Stop.Answer → Rose (D.said desk.old).faults (D.said desk.new).faults }
    ensures broken { (page expected found : ℕ) → result ≡ Err (Stop.Broken page expected found) → expected ≢ found }
    ensures counted { (D.disk_faults desk.old ≤ D.disk_faults desk.new) × ((D.said desk.old).faults ≤ (D.said desk.new).faults) }
{
    match desk.settle(false) {
        Ok(()) => (),
        Err(_) => return Err(Stop::Disk),
    }
    let reply = match execute_piece::<E, _, _>(desk, piece, steps) {
        Ok(reply) => reply,
        Err(Stop::Disk) => return Err(Stop::Disk),
        Err(Stop::Memory) => return Err(Stop::Memory),
        Err(
            Stop::Broken {
                page,
                expected,
                found,
            },
        ) => {
            return Err(Stop::Broken {
                page,
                expected,
                found,
            });
        }
        Err(Stop::Answer) => unreachable!(),
    };
    let bytes = reply.bytes.as_slice();
    if bytes.is_empty() {
        return Ok(reply.fault.is_some());
    }
    match desk.answer(bytes) {
        Ok(()) => Ok(reply.fault.is_some()),
        Err(_) => Err(Stop::Answer),
    }
}

// Executes a piece, and makes a checkpoint where it is CHECKPOINT and was accepted.
fn execute_piece<E: Execute, D: Desk, L: Ledger>(
    desk: &mut D,
    piece: &Piece,
    steps: &mut Steps<L>,
) -> Result<Reply, Stop>
    requires { D.ready desk.old }
    ensures done { IfOk result (λ reply. D.tells → (from : State) (text : List ℕ) → D.is_at desk.old from → piece_of text ≡ piece.now
        → (one : Done) × Does from text one × (reply_of reply ≡ one.reply) × D.is_at desk.new one.after
        × Between D.moment D.may_have_left_since desk.old desk.new (OneOf from.session.committed one.after.session.committed (D.said desk.old).bytes)) }
    ensures disk { result ≡ Err Stop.Disk → D.tells → (from : State) (text : List ℕ) → D.is_at desk.old from → piece_of text ≡ piece.now
        → (ones : List Done) × AreDone from (text ∷ []) ones
        × ((map : PageMap) → D.may_leave desk.new map → StandsFor map from.session.committed ⊎ StandsFor map (committed_after from ones))
        × Between D.moment D.may_have_left_since desk.old desk.new (OneOf from.session.committed (committed_after from ones) (D.said desk.old).bytes) }
    ensures memory { result ≡ Err Stop.Memory → D.tells → (from : State) → D.is_at desk.old from
        → ((map : PageMap) → D.may_leave desk.new map → StandsFor map from.session.committed)
        × Between D.moment D.may_have_left_since desk.old desk.new (OneOf from.session.committed from.session.committed (D.said desk.old).bytes) }
    ensures broken { (page expected found : ℕ) → result ≡ Err (Stop.Broken page expected found) → (expected ≢ found) × (D.tells → (from : State) → D.is_at desk.old from → ⊥) }
    ensures no_answer { result ≡ Err Stop.Answer → ⊥ }
    ensures cost { D.tells → (from : State) (text : List ℕ) → D.is_at desk.old from → piece_of text ≡ piece.now → (n : ℕ) → TurnCosts from.session text n → steps.new ≤ steps.old + n }
    ensures silent { IfOk result (λ reply. reply.bytes ≡ [] → D.tells → D.emptied desk.old → D.emptied desk.new) }
    ensures checkpoint { IfOk result (λ reply. reply.bytes ≡ checkpoint_reply → D.tells → D.emptied desk.new) }
    ensures ready { OnOk result (D.ready desk.new) }
    ensures said { D.said desk.new ≡ D.said desk.old }
    ensures follows { D.follows desk.old desk.new }
    ensures faults { D.disk_faults desk.old ≤ D.disk_faults desk.new }
    ensures rose { result ≡ Err Stop.Disk → D.on_disk × Rose (D.disk_faults desk.old) (D.disk_faults desk.new) }
{
    let reply = match desk.execute::<E, _>(piece, steps) {
        Ok(reply) => reply,
        Err(stop) => return Err(stop),
    };
    match settle_after(desk, &reply) {
        Ok(()) => Ok(reply),
        Err(_) => Err(Stop::Disk),
    }
}

// Makes a checkpoint behind the reply to CHECKPOINT.
fn settle_after<D: Desk>(desk: &mut D, reply: &Reply) -> Result<(), Failed>
    requires { D.ready desk.old }
    ensures at { OnOk result (D.tells → (from : State) → D.is_at desk.old from → D.is_at desk.new from) }
    ensures left { D.tells → (from : State) → D.is_at desk.old from → ((map : PageMap) → D.may_leave desk.new map → StandsFor map from.session.committed)
        × Between D.moment D.may_have_left_since desk.old desk.new (OneOf from.session.committed from.session.committed (D.said desk.old).bytes) }
    ensures emptied { OnOk result (D.tells → reply.now.bytes ≡ checkpoint_reply → D.idle desk.old → D.emptied desk.new) }
    ensures kept { OnOk result (D.tells → D.emptied desk.old → D.emptied desk.new) }
    ensures ready { OnOk result (D.ready desk.new) }
    ensures said { D.said desk.new ≡ D.said desk.old }
    ensures follows { D.follows desk.old desk.new }
    ensures on_disk { OnErr result D.on_disk }
    ensures faults { FailsWith (D.disk_faults desk.old) (D.disk_faults desk.new) result }
{
    if is_checkpoint(reply) {
        return desk.settle(true);
    }
    Ok(())
}

/// Whether this is the reply to CHECKPOINT.
fn is_checkpoint(reply: &Reply) -> bool
    ensures { IsTrue result ↔ (reply.now.bytes ≡ checkpoint_reply) }
{
    reply.bytes.as_slice() == b"CHECKPOINT\n".as_slice()
}

pub(crate) fn either(one: bool, other: bool) -> bool
    ensures { result ≡ (one || other) }
{
    one || other
}
