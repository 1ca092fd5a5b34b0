//! Who executes pieces, and answers.

ghost use Rattle.std.specs.Prelude.{◌≡◌, ◌≢◌, ◌⊎◌, ℕ, ◌≤◌, ◌+◌, Bool, true, List, [], ◌∷◌, ◌++◌, length, take, IfOk, IfErr, OnOk, OnErr};
ghost use Rattle.gx_words.specs.Causes.{Said, Rose, FailsWith};
ghost use Rattle.gx_words.specs.Moments.{Moment};
ghost use Rattle.gx_words.specs.PageMap.{PageMap};
ghost use Rattle.gx_lexer.specs.Feeding.{piece_of};
ghost use Rattle.gx_engine.specs.Times.{Between};
ghost use Rattle.gx_database.specs.Standing.{StandsFor};
ghost use Rattle.gx_model.specs.Turns.{TurnCosts};
ghost use Rattle.gx_model.specs.Runs.{State, Done, Does, AreDone, committed_after};
ghost use Rattle.gx_engine.specs.Engines.{reply_of, checkpoint_reply};
ghost use Rattle.gx_run.specs.Moves.{OneOf, While};

use crate::stop::Stop;
use gx_engine::{Execute, Reply};
use gx_io::Failed;
use gx_lexer::Piece;
use gx_pages::Steps;
use std::sync::ledger::Ledger;

/// An engine, and who is answered. A database in a file has moments; one in memory has none.
pub trait Desk {
    // Holds where the bytes are told.
    ghost tells: { Type 0 };

    // Where the run is: the maps of the store stand for the databases of the session, whatever a crash leaves stands for
    // the committed one, and there are no more pages than these.
    ghost is_at: { Self → State → Type 0 };

    // It may execute: no call of it failed.
    ghost ready: { Self → Type 0 };

    // No block is open, and none has failed.
    ghost idle: { Self → Type 0 };

    // The log has no record that counts; a database in memory has no log.
    ghost emptied: { Self → Type 0 };

    // Holds where there is a disk, which may fail.
    ghost on_disk: { Type 0 };

    ghost said: { Self → Said };

    ghost disk_faults: { Self → ℕ };

    // What its owner may rely on from a state of it to a later one, as which host it holds.
    ghost follows: { Self → Self → Type 0 };

    ghost moment: { Self → ℕ };

    ghost may_leave: { Self → PageMap → Type 0 };

    ghost may_have_left_since: { Self → ℕ → Moment PageMap → Type 0 };

    /// Executes a piece, in this way.
    fn execute<E: Execute, L: Ledger>(
        &mut self,
        piece: &Piece,
        steps: &mut Steps<L>,
    ) -> Result<Reply, Stop>
        requires { ready self.old }
        ensures done { IfOk result (λ reply. tells → (from : State) (text : List ℕ) → is_at self.old from → piece_of text ≡ piece.now
            → (one : Done) × Does from text one × (reply_of reply ≡ one.reply) × is_at self.new one.after
            × Between moment may_have_left_since self.old self.new (OneOf from.session.committed one.after.session.committed (said self.old).bytes)) }
        ensures disk { result ≡ Err Stop.Disk → tells → (from : State) (text : List ℕ) → is_at self.old from → piece_of text ≡ piece.now
            → (ones : List Done) × AreDone from (text ∷ []) ones
            × ((map : PageMap) → may_leave self.new map → StandsFor map from.session.committed ⊎ StandsFor map (committed_after from ones))
            × Between moment may_have_left_since self.old self.new (OneOf from.session.committed (committed_after from ones) (said self.old).bytes) }
        ensures memory { result ≡ Err Stop.Memory → tells → (from : State) → is_at self.old from
            → ((map : PageMap) → may_leave self.new map → StandsFor map from.session.committed)
            × Between moment may_have_left_since self.old self.new (OneOf from.session.committed from.session.committed (said self.old).bytes) }
        ensures broken { (page expected found : ℕ) → result ≡ Err (Stop.Broken page expected found) → (expected ≢ found) × (tells → (from : State) → is_at self.old from → ⊥) }
        ensures no_answer { result ≡ Err Stop.Answer → ⊥ }
        ensures cost { tells → (from : State) (text : List ℕ) → is_at self.old from → piece_of text ≡ piece.now → (n : ℕ) → TurnCosts from.session text n → steps.new ≤ steps.old + n }
        ensures silent { IfOk result (λ reply. reply.bytes ≡ [] → emptied self.old → emptied self.new) }
        ensures checkpoint { IfOk result (λ reply. reply.bytes ≡ checkpoint_reply → idle self.new) }
        ensures ready { OnOk result (ready self.new) }
        ensures said { said self.new ≡ said self.old }
        ensures follows { follows self.old self.new }
        ensures faults { disk_faults self.old ≤ disk_faults self.new }
        ensures rose { result ≡ Err Stop.Disk → on_disk × Rose (disk_faults self.old) (disk_faults self.new) };

    /// Answers.
    fn answer(&mut self, bytes: &[u8]) -> Result<(), Failed>
        requires { ready self.old }
        ensures at { tells → (from : State) → is_at self.old from → is_at self.new from
            × Between moment may_have_left_since self.old self.new (While from.session.committed (said self.old).bytes bytes.now) }
        ensures said { OnOk result (tells → (said self.new).bytes ≡ (said self.old).bytes ++ bytes.now) }
        ensures front { OnErr result (tells → (n : ℕ) × ((said self.new).bytes ≡ (said self.old).bytes ++ take n bytes.now)) }
        ensures emptied { emptied self.old → emptied self.new }
        ensures ready { ready self.new }
        ensures follows { follows self.old self.new }
        ensures disk { disk_faults self.new ≡ disk_faults self.old }
        ensures cause { FailsWith (said self.old).faults (said self.new).faults result };

    /// Makes a checkpoint where one is due or many pages wait; in a block it does nothing.
    fn settle(&mut self, due: bool) -> Result<(), Failed>
        requires { ready self.old }
        ensures at { OnOk result (tells → (from : State) → is_at self.old from → is_at self.new from) }
        ensures left { tells → (from : State) → is_at self.old from → ((map : PageMap) → may_leave self.new map → StandsFor map from.session.committed)
            × Between moment may_have_left_since self.old self.new (OneOf from.session.committed from.session.committed (said self.old).bytes) }
        ensures emptied { OnOk result (tells → due ≡ true → idle self.old → emptied self.new) }
        ensures kept { OnOk result (tells → emptied self.old → emptied self.new) }
        ensures in_block { (idle self.old → ⊥) → self.new ≡ self.old }
        ensures ready { OnOk result (ready self.new) }
        ensures said { said self.new ≡ said self.old }
        ensures follows { follows self.old self.new }
        ensures on_disk { OnErr result on_disk }
        ensures faults { FailsWith (disk_faults self.old) (disk_faults self.new) result };

    ghost stays: { (s : Self) → follows s s };

    ghost goes_on: { (a b c : Self) → follows a b → follows b c → follows a c };

    // Whatever a crash leaves stands for the committed database.
    ghost left: { tells → (s : Self) (from : State) → is_at s from → (map : PageMap) → may_leave s map → StandsFor map from.session.committed };
}
