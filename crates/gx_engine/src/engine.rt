//! The engine.

ghost use Rattle.std.specs.Prelude.{◌≡◌, ◌≢◌, ◌⊎◌, ◌↔◌, ℕ, ◌+◌, ◌≤◌, false, List, [], codes, None, Some, Err, is_err, IfOk, IfErr, OnOk, IsTrue};
ghost use Rattle.gx_words.specs.Causes.{Rose};
ghost use Rattle.gx_lexer.specs.Feeding.{piece_of};
ghost use Rattle.gx_chain.specs.Chains.{IsSound};
ghost use Rattle.gx_pages.specs.Pages.{HasCause};
ghost use Rattle.gx_model.specs.Turns.{Session, Turned, Turns, TurnCosts, reading_of};
ghost use Rattle.gx_parse.specs.Answers.{says};
ghost use Rattle.gx_parse.specs.Said.{Vacuum};
ghost use Rattle.gx_engine.specs.Engines.{GrowsBy, IsIn, IsSettled, Executed, Stopped, Unmade, reply_of, checkpoint_reply};
ghost use Rattle.gx_engine.specs.Vacuumed.{IsVacuumed};

use crate::execute::Execute;
use crate::reply::Reply;
use gx_lexer::Piece;
use gx_pages::{PageError, Steps, Store};
use std::alloc::Global;
use std::sync::ledger::Ledger;

/// What an engine's session has of a block.
#[derive(Clone, Copy, Debug, PartialEq, Eq, Drop)]
pub enum Kind {
    /// No block is open.
    Idle,
    /// A block is open.
    Begun,
    /// A block has failed.
    Failed,
}

/// An engine over a store, and its session.
#[derive(Drop)]
pub struct Engine<P> {
    alloc: Global,
    store: P,
    kind: Kind,
    ended: bool,
}

impl<P: Store> Engine<P> {
    ghost use Rattle.std.specs.Borrow.{sem};
    ghost use Rattle.gx_engine.specs.Lending.{lends_store};

    /// An engine over a store whose map is the committed one. No block is open. It doesn't call the store; where there is
    /// no memory, it hands the store back.
    pub fn open(alloc: Global, store: P) -> Result<Engine<P>, (P, PageError)>
        requires { P.spoiled store ≡ false }
        ensures over { IfOk result (λ engine. (engine.store ≡ store) × (engine.kind ≡ Kind.Idle) × (engine.ended ≡ false)) }
        ensures back { IfErr result (λ x. (x.0 ≡ store) × (x.1 ≡ PageError.Memory)) }
    {
        Ok(Engine {
            alloc,
            store,
            kind: Kind::Idle,
            ended: false,
        })
    }

    /// Executes a piece in this way: outside a block a statement is committed with its reply built, in a block it is worked. Where
    /// no page is left, the reply is the line of E20. Errors: a failure of the disk, a store that holds no database,
    /// want of memory; after one the engine has ended.
    pub fn execute<E: Execute, L: Ledger>(
        &mut self,
        piece: &Piece,
        steps: &mut Steps<L>,
    ) -> Result<Reply, PageError>
        requires running { self.old.ended ≡ false }
        requires sound { P.spoiled self.old.store ≡ false }

        // The reply is the one of the session's turn, or E20 where there is no room, and the store is where it was turned.
        ensures executed { IfOk result (λ reply. P.tells → (session : Session) (text : List ℕ) → IsIn P.Pages self.old.store self.old.kind session → piece_of text ≡ piece.now
            → Executed P.Pages self.old.store self.new.store self.new.kind session text (reply_of reply)) }

        // Outside a block nothing waits then to be committed, where nothing did before.
        ensures settled { OnOk result (P.tells → (session : Session) → IsIn P.Pages self.old.store self.old.kind session → (self.old.kind ≡ Kind.Idle → IsSettled P.Pages self.old.store)
            → self.new.kind ≡ Kind.Idle → IsSettled P.Pages self.new.store) }

        // An accepted VACUUM leaves each page but the last one of the table's heap with a row.
        ensures vacuumed { IfOk result (λ reply. reply.fault ≡ None → P.tells → (session : Session) (text table : List ℕ) → IsIn P.Pages self.old.store self.old.kind session → piece_of text ≡ piece.now
            → reading_of text ≡ Some (says (Vacuum table)) → IsVacuumed (P.map self.new.store) session.committed table) }

        // What the errors leave, and when they come.
        ensures stopped { result ≡ Err PageError.DiskFault → P.tells → (session : Session) (text : List ℕ) → IsIn P.Pages self.old.store self.old.kind session → piece_of text ≡ piece.now
            → Unmade P.Pages self.old.store self.new.store ⊎ Stopped P.Pages self.old.store self.new.store session text }
        ensures memory { result ≡ Err PageError.Memory → P.tells → (session : Session) → IsIn P.Pages self.old.store self.old.kind session → Unmade P.Pages self.old.store self.new.store }
        ensures cause { IfErr result (HasCause (P.faults self.old.store) (P.faults self.new.store)
            (λ at expected found. P.tells → (session : Session) → IsIn P.Pages self.old.store self.old.kind session → ⊥) (λ _. ⊥) (Unit {0})) }

        // After an error too there are no more pages than before and those that the turn may add.
        ensures grows { P.tells → (session : Session) (text : List ℕ) → IsIn P.Pages self.old.store self.old.kind session → piece_of text ≡ piece.now → (turned : Turned) → Turns session text turned
            → GrowsBy P.Pages self.old.store self.new.store turned.growth }

        // At least as many steps as heap pages were fetched, but where the pages are broken.
        ensures least { IsSound result → P.heap_fetches self.new.store + steps.old ≤ P.heap_fetches self.old.store + steps.new }
        ensures most { P.tells → (session : Session) (text : List ℕ) → IsIn P.Pages self.old.store self.old.kind session → piece_of text ≡ piece.now → (n : ℕ) → TurnCosts session text n → steps.new ≤ steps.old + n }

        // A piece without a reply, and CHECKPOINT, which is accepted outside a block alone, don't call the store.
        ensures silent { IfOk result (λ reply. reply.bytes ≡ [] → self.new.store ≡ self.old.store) }
        ensures checkpoint { IfOk result (λ reply. reply.bytes ≡ checkpoint_reply → (self.new.store ≡ self.old.store) × (self.new.kind ≡ Kind.Idle)) }

        // Nothing is answered to the outside, and what lies below goes on.
        ensures said { P.said self.new.store ≡ P.said self.old.store }
        ensures follows { P.follows self.old.store self.new.store }
        ensures faults { P.faults self.old.store ≤ P.faults self.new.store }
        ensures ended { self.new.ended ≡ is_err result }
        ensures sound { OnOk result (P.spoiled self.new.store ≡ false) }
    {
        let result = E::execute(self.alloc, &mut self.store, &mut self.kind, piece, steps);
        self.ended = result.is_err();
        result
    }

    /// Whether an earlier call of `execute` failed.
    pub fn ended(&self) -> bool
        ensures { result ≡ self.now.ended }
    {
        self.ended
    }

    /// Whether a block is open or has failed.
    pub fn in_block(&self) -> bool
        ensures { IsTrue result ↔ (self.now.kind ≢ Kind.Idle) }
    {
        !matches!(self.kind, Kind::Idle)
    }

    /// The store.
    pub fn store_mut(&mut self) -> &mut P
        ensures* writes_back { sem 𝓛 (lends_store P.row self.entry result) }
        ensures value { result.now ≡ self.old.store }
    {
        &mut self.store
    }

    /// The store, handed back.
    pub fn into_store(self) -> P
        ensures { result ≡ self.store }
    {
        let Engine {
            alloc: _,
            store,
            kind: _,
            ended: _,
        } = self;
        store
    }
}
