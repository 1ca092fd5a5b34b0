//! The units of changes of a session: what is done outside a block, or in one.

ghost use Rattle.std.specs.Prelude.{◌≡◌, ◌≢◌, ℕ, ◌≤◌, false, Err, IfErr, OnOk};
ghost use Rattle.gx_pages.specs.Pages.{Beside, HasCause};
ghost use Rattle.gx_database.specs.Standing.{StandsFor};
ghost use Rattle.gx_model.specs.Database.{Database};
ghost use Rattle.gx_model.specs.Turns.{Session, begun, refused_in, session_over, with_seen};
ghost use Rattle.gx_engine.specs.Engines.{HasAtMost, IsIn, IsSettled, Unmade};
ghost use Rattle.gx_session.specs.Moves.{Keeps, Moved, MayHaveMoved, NeverGrows, broken};

use gx_engine::Kind;
use gx_pages::{PageError, Store};

/// Begins a unit of changes where no block is open.
pub fn begin_unit<P: Store>(store: &mut P, kind: &Kind)
    requires { P.spoiled store.old ≡ false }
    ensures is_in { P.tells → (session : Session) → IsIn P.Pages store.old kind.now session → IsIn P.Pages store.new kind.now session }
    ensures count { P.count store.new ≡ P.count store.old }
    ensures committed_count { P.committed_count store.new ≡ P.committed_count store.old }
    ensures unmade { Unmade P.Pages store.old store.new }
    ensures beside { Beside P.said P.fetches P.heap_fetches P.faults P.follows store.old store.new }
    ensures sound { P.spoiled store.new ≡ false }
{
    match kind {
        Kind::Idle => store.begin(),
        _ => (),
    }
}

/// Opens a block.
pub fn open_block<P: Store>(store: &mut P, kind: &mut Kind)
    requires sound { P.spoiled store.old ≡ false }
    requires idle { kind.old ≡ Kind.Idle }
    ensures moved { P.tells → (session : Session) → IsIn P.Pages store.old kind.old session
        → Moved P.Pages store.old store.new kind.new (record { committed = session.committed; block = begun session.committed }) }
    ensures grows { NeverGrows P.Pages store.old store.new }
    ensures beside { Beside P.said P.fetches P.heap_fetches P.faults P.follows store.old store.new }
    ensures sound { P.spoiled store.new ≡ false }
{
    begin_unit(store, kind);
    *kind = Kind::Begun;
}

/// Gives up what wasn't committed. An open block has failed then.
pub fn break_off<P: Store>(store: &mut P, kind: &mut Kind)
    ensures moved { P.tells → (session : Session) → Keeps P.Pages store.old kind.old session → Moved P.Pages store.old store.new kind.new (refused_in session) }
    ensures settled { P.tells → IsSettled P.Pages store.new }
    ensures shrinks { (pages : ℕ) → P.committed_count store.old ≤ pages → HasAtMost P.Pages store.new pages }
    ensures unmade { Unmade P.Pages store.old store.new }
    ensures beside { Beside P.said P.fetches P.heap_fetches P.faults P.follows store.old store.new }
    ensures sound { P.spoiled store.new ≡ P.spoiled store.old }
{
    store.abandon();
    *kind = broken_off(*kind);
}

fn broken_off(kind: Kind) -> Kind
    ensures { result ≡ broken kind }
{
    match kind {
        Kind::Idle => Kind::Idle,
        Kind::Begun => Kind::Failed,
        Kind::Failed => Kind::Failed,
    }
}

/// Gives up what wasn't committed, and leaves the block.
pub fn roll_back<P: Store>(store: &mut P, kind: &mut Kind)
    ensures moved { P.tells → (session : Session) → Keeps P.Pages store.old kind.old session → Moved P.Pages store.old store.new kind.new (session_over session.committed) }
    ensures settled { P.tells → IsSettled P.Pages store.new }
    ensures grows { NeverGrows P.Pages store.old store.new }
    ensures beside { Beside P.said P.fetches P.heap_fetches P.faults P.follows store.old store.new }
    ensures sound { P.spoiled store.new ≡ P.spoiled store.old }
{
    store.abandon();
    *kind = Kind::Idle;
}

/// Makes the map the committed one, and leaves the block. Errors: a failure of the disk, want of memory.
pub fn commit<P: Store>(store: &mut P, kind: &mut Kind) -> Result<(), PageError>
    requires { P.spoiled store.old ≡ false }
    ensures moved { OnOk result (P.tells → (session : Session) (db : Database) → Keeps P.Pages store.old kind.old session → StandsFor (P.map store.old) db
        → Moved P.Pages store.old store.new kind.new (session_over db)) }
    ensures settled { OnOk result (P.tells → (session : Session) → Keeps P.Pages store.old kind.old session → IsSettled P.Pages store.new) }
    ensures map { OnOk result (P.tells → (session : Session) → Keeps P.Pages store.old kind.old session → P.map store.new ≡ P.map store.old) }
    ensures disk { result ≡ Err PageError.DiskFault → P.tells → (session : Session) (db : Database) → Keeps P.Pages store.old kind.old session → StandsFor (P.map store.old) db
        → MayHaveMoved P.Pages store.old store.new db }
    ensures memory { result ≡ Err PageError.Memory → P.tells → (session : Session) → Keeps P.Pages store.old kind.old session → Unmade P.Pages store.old store.new }
    ensures cause { IfErr result (HasCause (P.faults store.old) (P.faults store.new) (λ _ _ _. ⊥) (λ _. ⊥) (Unit {0})) }
    ensures grows { NeverGrows P.Pages store.old store.new }
    ensures beside { Beside P.said P.fetches P.heap_fetches P.faults P.follows store.old store.new }
    ensures sound { OnOk result (P.spoiled store.new ≡ false) }
{
    store.reserve()?;
    store.commit()?;
    *kind = Kind::Idle;
    Ok(())
}

/// Ends a statement without a fault: outside a block what it did is committed. Errors: a failure of the disk, want of memory.
pub fn end_unit<P: Store>(store: &mut P, kind: &mut Kind) -> Result<(), PageError>
    requires sound { P.spoiled store.old ≡ false }
    requires sees { kind.old ≢ Kind.Failed }
    ensures moved { OnOk result (P.tells → (session : Session) (db : Database) → Keeps P.Pages store.old kind.old session → StandsFor (P.map store.old) db
        → Moved P.Pages store.old store.new kind.new (with_seen session db)) }
    ensures settled { OnOk result (P.tells → (session : Session) → Keeps P.Pages store.old kind.old session → kind.new ≡ Kind.Idle → IsSettled P.Pages store.new) }
    ensures map { OnOk result (P.tells → (session : Session) → Keeps P.Pages store.old kind.old session → P.map store.new ≡ P.map store.old) }
    ensures disk { result ≡ Err PageError.DiskFault → P.tells → (session : Session) (db : Database) → Keeps P.Pages store.old kind.old session → StandsFor (P.map store.old) db
        → MayHaveMoved P.Pages store.old store.new (with_seen session db).committed }
    ensures memory { result ≡ Err PageError.Memory → P.tells → (session : Session) → Keeps P.Pages store.old kind.old session → Unmade P.Pages store.old store.new }
    ensures cause { IfErr result (HasCause (P.faults store.old) (P.faults store.new) (λ _ _ _. ⊥) (λ _. ⊥) (Unit {0})) }
    ensures grows { NeverGrows P.Pages store.old store.new }
    ensures beside { Beside P.said P.fetches P.heap_fetches P.faults P.follows store.old store.new }
    ensures sound { OnOk result (P.spoiled store.new ≡ false) }
{
    match *kind {
        Kind::Idle => commit(store, kind),
        _ => Ok(()),
    }
}
