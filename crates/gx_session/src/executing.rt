//! Statements in a session.

ghost use Rattle.std.specs.Prelude.{◌≡◌, ◌⊎◌, ℕ, ◌+◌, ◌≤◌, false, List, [], None, Err, IfOk, IfErr, OnOk};
ghost use Rattle.gx_chain.specs.Chains.{IsSound as IsUnbroken};
ghost use Rattle.gx_pages.specs.Pages.{Beside, HasCause};
ghost use Rattle.gx_model.specs.Turns.{Session, Turned, Turns, TurnCosts};
ghost use Rattle.gx_engine.specs.Engines.{GrowsBy, IsIn, IsSettled, Executed, Stopped, Unmade, reply_of, checkpoint_reply};
ghost use Rattle.gx_engine.specs.Vacuumed.{IsVacuumed};
ghost use Rattle.gx_parse.specs.Said.{Vacuum, said_of};
ghost use Rattle.gx_parse.specs.Sound.{IsSound};
ghost use Rattle.gx_session.specs.Moves.{GoesOn, Moved, MayHaveMoved, NeverGrows};
ghost use Rattle.gx_session.specs.Readings.{ReadAs};
ghost use Rattle.gx_session.specs.Tasks.{IsFor, IsStill, after_of, reply_to};

use crate::task::{Task, reply_to_task, task_of};
use crate::units::{break_off, commit, open_block, roll_back};
use crate::working::work;
use gx_engine::{Kind, Reply};
use gx_pages::{PageError, Steps, Store};
use gx_parse::Statement;
use std::alloc::Global;
use std::sync::ledger::Ledger;

/// Executes a statement in a session with this block. What belongs to the session is answered before it is done.
pub fn execute_statement<P: Store, L: Ledger>(
    alloc: Global,
    store: &mut P,
    kind: &mut Kind,
    statement: &Statement,
    steps: &mut Steps<L>,
) -> Result<Reply, PageError>
    requires sound { P.spoiled store.old ≡ false }
    requires grammar { IsSound (said_of statement.now) }
    ensures executed { IfOk result (λ reply. P.tells → (session : Session) (text : List ℕ) → IsIn P.Pages store.old kind.old session → ReadAs text (said_of statement.now)
        → Executed P.Pages store.old store.new kind.new session text (reply_of reply)) }
    ensures settled { OnOk result (P.tells → (session : Session) → IsIn P.Pages store.old kind.old session → (kind.old ≡ Kind.Idle → IsSettled P.Pages store.old)
        → kind.new ≡ Kind.Idle → IsSettled P.Pages store.new) }
    ensures vacuumed { IfOk result (λ reply. reply.fault ≡ None → P.tells → (session : Session) (table : List ℕ) → IsIn P.Pages store.old kind.old session
        → said_of statement.now ≡ Vacuum table → IsVacuumed (P.map store.new) session.committed table) }
    ensures stopped { result ≡ Err PageError.DiskFault → P.tells → (session : Session) (text : List ℕ) → IsIn P.Pages store.old kind.old session → ReadAs text (said_of statement.now)
        → Unmade P.Pages store.old store.new ⊎ Stopped P.Pages store.old store.new session text }
    ensures memory { result ≡ Err PageError.Memory → P.tells → (session : Session) → IsIn P.Pages store.old kind.old session → Unmade P.Pages store.old store.new }
    ensures cause { IfErr result (HasCause (P.faults store.old) (P.faults store.new)
        (λ at expected found. P.tells → (session : Session) → IsIn P.Pages store.old kind.old session → ⊥) (λ _. ⊥) (Unit {0})) }
    ensures grows { P.tells → (session : Session) (text : List ℕ) → IsIn P.Pages store.old kind.old session → ReadAs text (said_of statement.now) → (turned : Turned) → Turns session text turned
        → GrowsBy P.Pages store.old store.new turned.growth }
    ensures most { P.tells → (session : Session) (text : List ℕ) → IsIn P.Pages store.old kind.old session → ReadAs text (said_of statement.now)
        → (n : ℕ) → TurnCosts session text n → steps.new ≤ steps.old + n }
    ensures silent { IfOk result (λ reply. reply.bytes ≡ [] → store.new ≡ store.old) }
    ensures checkpoint { IfOk result (λ reply. reply.bytes ≡ checkpoint_reply → (store.new ≡ store.old) × (kind.new ≡ Kind.Idle)) }
    ensures least { IsUnbroken result → P.heap_fetches store.new + steps.old ≤ P.heap_fetches store.old + steps.new }
    ensures goes { GoesOn P.Pages store.old store.new }
    ensures sound { OnOk result (P.spoiled store.new ≡ false) }
{
    let task = task_of(*kind, statement);
    match task {
        Task::Work => work(alloc, store, kind, statement, steps),
        _ => answer_task(alloc, store, kind, task),
    }
}

/// Builds the reply to a task, and then does what it asks. Errors: a failure of the disk, want of memory.
fn answer_task<P: Store>(
    alloc: Global,
    store: &mut P,
    kind: &mut Kind,
    task: Task,
) -> Result<Reply, PageError>
    requires sound { P.spoiled store.old ≡ false }
    requires kind { IsFor kind.old task }
    ensures reply { IfOk result (λ reply. reply_of reply ≡ reply_to task) }
    ensures moved { OnOk result (P.tells → (session : Session) → IsIn P.Pages store.old kind.old session → Moved P.Pages store.old store.new kind.new (after_of task session)) }
    ensures settled { OnOk result (P.tells → (session : Session) → IsIn P.Pages store.old kind.old session → (kind.old ≡ Kind.Idle → IsSettled P.Pages store.old)
        → kind.new ≡ Kind.Idle → IsSettled P.Pages store.new) }
    ensures disk { result ≡ Err PageError.DiskFault → P.tells → (session : Session) → IsIn P.Pages store.old kind.old session
        → MayHaveMoved P.Pages store.old store.new (after_of task session).committed }
    ensures memory { result ≡ Err PageError.Memory → P.tells → (session : Session) → IsIn P.Pages store.old kind.old session → Unmade P.Pages store.old store.new }
    ensures cause { IfErr result (HasCause (P.faults store.old) (P.faults store.new) (λ _ _ _. ⊥) (λ _. ⊥) (Unit {0})) }
    ensures still { IsStill task → (store.new ≡ store.old) × (kind.new ≡ kind.old) }
    ensures grows { NeverGrows P.Pages store.old store.new }
    ensures heap { P.heap_fetches store.new ≡ P.heap_fetches store.old }
    ensures goes { GoesOn P.Pages store.old store.new }
    ensures sound { OnOk result (P.spoiled store.new ≡ false) }
{
    let reply = reply_to_task(alloc, task)?;
    match carry_out(store, kind, task) {
        Ok(()) => Ok(reply),
        Err(error) => Err(error),
    }
}

/// Does what a task asks of the store, and of the block. Work asks for nothing here. Errors: a failure of the disk, want of memory.
fn carry_out<P: Store>(store: &mut P, kind: &mut Kind, task: Task) -> Result<(), PageError>
    requires sound { P.spoiled store.old ≡ false }
    requires kind { IsFor kind.old task }
    ensures moved { OnOk result (P.tells → (session : Session) → IsIn P.Pages store.old kind.old session → Moved P.Pages store.old store.new kind.new (after_of task session)) }
    ensures settled { OnOk result (P.tells → (session : Session) → IsIn P.Pages store.old kind.old session → (kind.old ≡ Kind.Idle → IsSettled P.Pages store.old)
        → kind.new ≡ Kind.Idle → IsSettled P.Pages store.new) }
    ensures disk { result ≡ Err PageError.DiskFault → P.tells → (session : Session) → IsIn P.Pages store.old kind.old session
        → MayHaveMoved P.Pages store.old store.new (after_of task session).committed }
    ensures memory { result ≡ Err PageError.Memory → P.tells → (session : Session) → IsIn P.Pages store.old kind.old session → Unmade P.Pages store.old store.new }
    ensures cause { IfErr result (HasCause (P.faults store.old) (P.faults store.new) (λ _ _ _. ⊥) (λ _. ⊥) (Unit {0})) }
    ensures still { IsStill task → (store.new ≡ store.old) × (kind.new ≡ kind.old) }
    ensures grows { NeverGrows P.Pages store.old store.new }
    ensures heap { P.heap_fetches store.new ≡ P.heap_fetches store.old }
    ensures goes { GoesOn P.Pages store.old store.new }
    ensures sound { OnOk result (P.spoiled store.new ≡ false) }
{
    match task {
        Task::Silence => Ok(()),
        Task::Answer(_) => Ok(()),
        Task::Work => Ok(()),
        Task::Open => {
            open_block(store, kind);
            Ok(())
        }
        Task::Commit => commit(store, kind),
        Task::RollBack => {
            roll_back(store, kind);
            Ok(())
        }
        Task::Refuse(_) => {
            break_off(store, kind);
            Ok(())
        }
    }
}
