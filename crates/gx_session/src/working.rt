//! Statements that work on the database that a session sees.

ghost use Rattle.std.specs.Prelude.{◌≡◌, ◌≢◌, ◌⊎◌, ℕ, ◌+◌, ◌≤◌, false, List, None, Ok, Err, IfOk, IfErr, IfSome, OnOk};
ghost use Rattle.gx_chain.specs.Chains.{IsSound as IsUnbroken};
ghost use Rattle.gx_pages.specs.Footprints.{StaysQuiet};
ghost use Rattle.gx_pages.specs.Pages.{Beside, HasCause};
ghost use Rattle.gx_database.specs.Standing.{StandsFor};
ghost use Rattle.gx_model.specs.Database.{Database};
ghost use Rattle.gx_model.specs.Turns.{Session, Turned, Turns, TurnCosts};
ghost use Rattle.gx_engine.specs.Engines.{GrowsBy, IsIn, IsSettled, Executed, Stopped, Unmade, reply_of};
ghost use Rattle.gx_engine.specs.Vacuumed.{IsVacuumed};
ghost use Rattle.gx_parse.specs.Said.{Vacuum, said_of};
ghost use Rattle.gx_parse.specs.Sound.{IsSound};
ghost use Rattle.gx_step.specs.Doing.{AtMostCosts, AtMostGrows, DoneFor, IsOrdinary, LackRoomFor, StandForNone};
ghost use Rattle.gx_statement.specs.Work.{IsWork};
ghost use Rattle.gx_session.specs.Moves.{GoesOn, Keeps, Moved, MayHaveMoved, NeverGrows, behind};
ghost use Rattle.gx_session.specs.Readings.{ReadAs};
ghost use Rattle.gx_session.specs.Tasks.{task_in};

use crate::task::Task;
use crate::units::{begin_unit, break_off, end_unit};
use gx_engine::{Kind, Reply};
use gx_pages::{PageError, Pages, Steps, Store};
use gx_parse::Statement;
use gx_statement::step;
use gx_step::refused;
use std::alloc::Global;
use std::sync::ledger::Ledger;

/// Does a statement on the database that the session sees. Outside a block it is committed with its reply built; with a fault, and where
/// there is no room, what it did is given up.
pub fn work<P: Store, L: Ledger>(
    alloc: Global,
    store: &mut P,
    kind: &mut Kind,
    statement: &Statement,
    steps: &mut Steps<L>,
) -> Result<Reply, PageError>
    requires sound { P.spoiled store.old ≡ false }
    requires work { task_in kind.old (said_of statement.now) ≡ Task.Work }
    requires grammar { IsSound (said_of statement.now) }
    ensures executed { IfOk result (λ reply. P.tells → (session : Session) (text : List ℕ) → IsIn P.Pages store.old kind.old session → ReadAs text (said_of statement.now)
        → Executed P.Pages store.old store.new kind.new session text (reply_of reply)) }
    ensures settled { OnOk result (P.tells → (session : Session) → IsIn P.Pages store.old kind.old session → kind.new ≡ Kind.Idle → IsSettled P.Pages store.new) }
    ensures vacuumed { IfOk result (λ reply. reply.fault ≡ None → P.tells → (session : Session) (table : List ℕ) → IsIn P.Pages store.old kind.old session
        → said_of statement.now ≡ Vacuum table → IsVacuumed (P.map store.new) session.committed table) }
    ensures stopped { result ≡ Err PageError.DiskFault → P.tells → (session : Session) (text : List ℕ) → IsIn P.Pages store.old kind.old session → ReadAs text (said_of statement.now)
        → Unmade P.Pages store.old store.new ⊎ Stopped P.Pages store.old store.new session text }
    ensures memory { result ≡ Err PageError.Memory → P.tells → (session : Session) → IsIn P.Pages store.old kind.old session → Unmade P.Pages store.old store.new }
    ensures cause { IfErr result (HasCause (P.faults store.old) (P.faults store.new)
        (λ at expected found. P.tells → (session : Session) → IsIn P.Pages store.old kind.old session → ⊥) (λ _. ⊥) (Unit {0})) }
    ensures most { P.tells → (session : Session) (text : List ℕ) → IsIn P.Pages store.old kind.old session → ReadAs text (said_of statement.now)
        → (n : ℕ) → TurnCosts session text n → steps.new ≤ steps.old + n }
    ensures grows { P.tells → (session : Session) (text : List ℕ) → IsIn P.Pages store.old kind.old session → ReadAs text (said_of statement.now) → (turned : Turned) → Turns session text turned
        → GrowsBy P.Pages store.old store.new turned.growth }
    ensures ordinary { IfOk result (λ reply. IsOrdinary (reply_of reply)) }
    ensures least { IsUnbroken result → P.heap_fetches store.new + steps.old ≤ P.heap_fetches store.old + steps.new }
    ensures goes { GoesOn P.Pages store.old store.new }
    ensures sound { OnOk result (P.spoiled store.new ≡ false) }
{
    begin_unit(store, kind);
    let done = try_step(alloc, store, statement, steps)?;
    match done {
        Some(reply) => settle(store, kind, reply),
        None => {
            break_off(store, kind);
            refused(alloc, 20)
        }
    }
}

/// Ends a statement that was done and is answered so: with a fault it is given up, else it is committed outside a block.
fn settle<P: Store>(store: &mut P, kind: &mut Kind, reply: Reply) -> Result<Reply, PageError>
    requires sound { P.spoiled store.old ≡ false }
    requires sees { kind.old ≢ Kind.Failed }
    ensures reply { IfOk result (λ same. same ≡ reply) }
    ensures moved { OnOk result (P.tells → (session : Session) (db : Database) → Keeps P.Pages store.old kind.old session → StandsFor (P.map store.old) db
        → Moved P.Pages store.old store.new kind.new (behind reply.fault session db)) }
    ensures settled { OnOk result (P.tells → (session : Session) → Keeps P.Pages store.old kind.old session → kind.new ≡ Kind.Idle → IsSettled P.Pages store.new) }
    ensures map { OnOk result (reply.fault ≡ None → P.tells → (session : Session) → Keeps P.Pages store.old kind.old session → P.map store.new ≡ P.map store.old) }
    ensures disk { result ≡ Err PageError.DiskFault → P.tells → (session : Session) (db : Database) → Keeps P.Pages store.old kind.old session → StandsFor (P.map store.old) db
        → MayHaveMoved P.Pages store.old store.new (behind reply.fault session db).committed }
    ensures memory { result ≡ Err PageError.Memory → P.tells → (session : Session) → Keeps P.Pages store.old kind.old session → Unmade P.Pages store.old store.new }
    ensures cause { IfErr result (HasCause (P.faults store.old) (P.faults store.new) (λ _ _ _. ⊥) (λ _. ⊥) (Unit {0})) }
    ensures grows { NeverGrows P.Pages store.old store.new }
    ensures beside { Beside P.said P.fetches P.heap_fetches P.faults P.follows store.old store.new }
    ensures sound { OnOk result (P.spoiled store.new ≡ false) }
{
    match reply.fault {
        Some(_) => {
            break_off(store, kind);
            Ok(reply)
        }
        None => match end_unit(store, kind) {
            Ok(()) => Ok(reply),
            Err(error) => Err(error),
        },
    }
}

/// Does a statement; None where there is no room for its pages.
fn try_step<P: Pages, L: Ledger>(
    alloc: Global,
    pages: &mut P,
    statement: &Statement,
    steps: &mut Steps<L>,
) -> Result<Option<Reply>, PageError>
    requires { IsSound (said_of statement.now) }
    ensures done { IfOk result (λ replied. IfSome replied (DoneFor P.Pages pages.old pages.new (said_of statement.now))) }
    ensures full { result ≡ Ok None → LackRoomFor P.Pages pages.old (said_of statement.now) }
    ensures ordinary { IsWork (said_of statement.now) → IfOk result (λ replied. IfSome replied (λ reply. IsOrdinary (reply_of reply))) }
    ensures cause { IfErr result (HasCause (P.faults pages.old) (P.faults pages.new)
        (λ at expected found. StandForNone P.Pages pages.old) (λ _. ⊥) (Unit {0})) }
    ensures grows { AtMostGrows P.Pages pages.old pages.new (said_of statement.now) }
    ensures least { IsUnbroken result → P.heap_fetches pages.new + steps.old ≤ P.heap_fetches pages.old + steps.new }
    ensures most { AtMostCosts P.Pages pages.old (said_of statement.now) steps.old steps.new }
    ensures quiet { StaysQuiet P.Pages pages.old pages.new }
{
    match step(alloc, pages, statement, steps) {
        Ok(reply) => Ok(Some(reply)),
        Err(PageError::PageSpace { pages: _ }) => Ok(None),
        Err(PageError::DiskFault) => Err(PageError::DiskFault),
        Err(PageError::Memory) => Err(PageError::Memory),
        Err(
            PageError::Broken {
                page,
                expected,
                found,
            },
        ) => Err(PageError::Broken {
            page,
            expected,
            found,
        }),
    }
}
