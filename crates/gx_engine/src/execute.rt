//! A way of executing pieces.

ghost use Rattle.std.specs.Prelude.{◌≡◌, ◌⊎◌, ℕ, ◌+◌, ◌≤◌, false, List, [], None, Some, Err, IfOk, IfErr, OnOk};
ghost use Rattle.gx_lexer.specs.Feeding.{piece_of};
ghost use Rattle.gx_chain.specs.Chains.{IsSound};
ghost use Rattle.gx_pages.specs.Pages.{HasCause};
ghost use Rattle.gx_model.specs.Turns.{Session, Turned, Turns, TurnCosts, reading_of};
ghost use Rattle.gx_parse.specs.Answers.{says};
ghost use Rattle.gx_parse.specs.Said.{Vacuum};
ghost use Rattle.gx_engine.specs.Engines.{GrowsBy, IsIn, IsSettled, Executed, Stopped, Unmade, reply_of, checkpoint_reply};
ghost use Rattle.gx_engine.specs.Vacuumed.{IsVacuumed};

use crate::engine::Kind;
use crate::reply::Reply;
use gx_lexer::Piece;
use gx_pages::{PageError, Steps, Store};
use std::alloc::Global;
use std::sync::ledger::Ledger;

/// A way of executing pieces on a store: what an engine does with one.
pub trait Execute {
    /// Executes a piece: outside a block a statement is committed with its reply built, in a block it is worked. Where
    /// no page is left, the reply is the line of E20. Errors: a failure of the disk, a store that holds no database,
    /// want of memory.
    fn execute<P: Store, L: Ledger>(
        alloc: Global,
        store: &mut P,
        kind: &mut Kind,
        piece: &Piece,
        steps: &mut Steps<L>,
    ) -> Result<Reply, PageError>
        requires { P.spoiled store.old ≡ false }

        // The reply is the one of the session's turn, or E20 where there is no room, and the store is where it was turned.
        ensures executed { IfOk result (λ reply. P.tells → (session : Session) (text : List ℕ) → IsIn P.Pages store.old kind.old session → piece_of text ≡ piece.now
            → Executed P.Pages store.old store.new kind.new session text (reply_of reply)) }

        // Outside a block nothing waits then to be committed, where nothing did before.
        ensures settled { OnOk result (P.tells → (session : Session) → IsIn P.Pages store.old kind.old session → (kind.old ≡ Kind.Idle → IsSettled P.Pages store.old)
            → kind.new ≡ Kind.Idle → IsSettled P.Pages store.new) }

        // An accepted VACUUM leaves each page but the last one of the table's heap with a row.
        ensures vacuumed { IfOk result (λ reply. reply.fault ≡ None → P.tells → (session : Session) (text table : List ℕ) → IsIn P.Pages store.old kind.old session → piece_of text ≡ piece.now
            → reading_of text ≡ Some (says (Vacuum table)) → IsVacuumed (P.map store.new) session.committed table) }

        // What the errors leave, and when they come.
        ensures stopped { result ≡ Err PageError.DiskFault → P.tells → (session : Session) (text : List ℕ) → IsIn P.Pages store.old kind.old session → piece_of text ≡ piece.now
            → Unmade P.Pages store.old store.new ⊎ Stopped P.Pages store.old store.new session text }
        ensures memory { result ≡ Err PageError.Memory → P.tells → (session : Session) → IsIn P.Pages store.old kind.old session → Unmade P.Pages store.old store.new }
        ensures cause { IfErr result (HasCause (P.faults store.old) (P.faults store.new)
            (λ at expected found. P.tells → (session : Session) → IsIn P.Pages store.old kind.old session → ⊥) (λ _. ⊥) (Unit {0})) }

        // After an error too there are no more pages than before and those that the turn may add.
        ensures grows { P.tells → (session : Session) (text : List ℕ) → IsIn P.Pages store.old kind.old session → piece_of text ≡ piece.now → (turned : Turned) → Turns session text turned
            → GrowsBy P.Pages store.old store.new turned.growth }

        // At least as many steps as heap pages were fetched, but where the pages are broken.
        ensures least { IsSound result → P.heap_fetches store.new + steps.old ≤ P.heap_fetches store.old + steps.new }
        ensures most { P.tells → (session : Session) (text : List ℕ) → IsIn P.Pages store.old kind.old session → piece_of text ≡ piece.now → (n : ℕ) → TurnCosts session text n → steps.new ≤ steps.old + n }

        // A piece without a reply, and CHECKPOINT, which is accepted outside a block alone, don't call the store.
        ensures silent { IfOk result (λ reply. reply.bytes ≡ [] → store.new ≡ store.old) }
        ensures checkpoint { IfOk result (λ reply. reply.bytes ≡ checkpoint_reply → (store.new ≡ store.old) × (kind.new ≡ Kind.Idle)) }

        // Nothing is answered to the outside, and what lies below goes on.
        ensures said { P.said store.new ≡ P.said store.old }
        ensures follows { P.follows store.old store.new }
        ensures faults { P.faults store.old ≤ P.faults store.new }
        ensures sound { OnOk result (P.spoiled store.new ≡ false) };
}
