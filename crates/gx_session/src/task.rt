//! What a session does with a statement.

ghost use Rattle.std.specs.Prelude.{◌≡◌, [], IfOk, IfErr};
ghost use Rattle.gx_engine.specs.Engines.{reply_of};
ghost use Rattle.gx_model.specs.Replies.{accepted};
ghost use Rattle.gx_parse.specs.Said.{said_of};
ghost use Rattle.gx_session.specs.Tasks.{idle_task, begun_task, failed_task, task_in, word_text, reply_to};

use gx_bytes::Bytes;
use gx_engine::{Kind, Reply};
use gx_pages::PageError;
use gx_parse::Statement;
use gx_step::{refused, told};
use std::alloc::Global;

/// A word that is answered where nothing is to be done.
#[derive(Clone, Copy, Debug, PartialEq, Eq, Drop)]
pub enum Word {
    Begin,
    Commit,
    Checkpoint,
}

/// What a session does with a statement.
#[derive(Clone, Copy, Debug, PartialEq, Eq, Drop)]
pub enum Task {
    /// Nothing is answered or done.
    Silence,
    /// The word is answered, and nothing is done.
    Answer(Word),
    /// A block is opened.
    Open,
    /// The open block is committed.
    Commit,
    /// What isn't committed is given up, and so is a block.
    RollBack,
    /// The statement is refused with the fault of this number.
    Refuse(u8),
    /// The statement works on the database that the session sees.
    Work,
}

/// What a session with this block does with a statement.
pub fn task_of(kind: Kind, statement: &Statement) -> Task
    ensures { result ≡ task_in kind (said_of statement.now) }
{
    match kind {
        Kind::Idle => task_outside(statement),
        Kind::Begun => task_inside(statement),
        Kind::Failed => task_in_failed(statement),
    }
}

fn task_outside(statement: &Statement) -> Task
    ensures { result ≡ idle_task (said_of statement.now) }
{
    match statement {
        Statement::Nothing => Task::Silence,
        Statement::Begin => Task::Open,
        Statement::Commit => Task::Answer(Word::Commit),
        Statement::Rollback => Task::RollBack,
        Statement::Checkpoint => Task::Answer(Word::Checkpoint),
        _ => Task::Work,
    }
}

fn task_inside(statement: &Statement) -> Task
    ensures { result ≡ begun_task (said_of statement.now) }
{
    match statement {
        Statement::Nothing => Task::Silence,
        Statement::Begin => Task::Answer(Word::Begin),
        Statement::Commit => Task::Commit,
        Statement::Rollback => Task::RollBack,
        Statement::Checkpoint => Task::Refuse(23),
        Statement::Vacuum { table: _ } => Task::Refuse(23),
        _ => Task::Work,
    }
}

fn task_in_failed(statement: &Statement) -> Task
    ensures { result ≡ failed_task (said_of statement.now) }
{
    match statement {
        Statement::Nothing => Task::Silence,
        Statement::Commit => Task::RollBack,
        Statement::Rollback => Task::RollBack,
        _ => Task::Refuse(22),
    }
}

impl Word {
    fn text(self) -> &'static str
        ensures { result.now ≡ word_text self }
    {
        match self {
            Word::Begin => "BEGIN",
            Word::Commit => "COMMIT",
            Word::Checkpoint => "CHECKPOINT",
        }
    }
}

/// The reply to a statement with this task, which isn't Work. The error is Memory.
pub fn reply_to_task(alloc: Global, task: Task) -> Result<Reply, PageError>
    ensures reply { IfOk result (λ reply. reply_of reply ≡ reply_to task) }
    ensures err { IfErr result (λ e. e ≡ PageError.Memory) }
{
    match task {
        Task::Silence => Ok(silence(alloc)),
        Task::Work => Ok(silence(alloc)),
        Task::Answer(word) => told(alloc, word.text()),
        Task::Open => told(alloc, "BEGIN"),
        Task::Commit => told(alloc, "COMMIT"),
        Task::RollBack => told(alloc, "ROLLBACK"),
        Task::Refuse(number) => refused(alloc, number),
    }
}

fn silence(alloc: Global) -> Reply
    ensures { reply_of result ≡ accepted [] }
{
    Reply {
        bytes: Bytes::new(alloc),
        fault: None,
    }
}
