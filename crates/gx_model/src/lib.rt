//! What the statements of a script do: to a database, in a session, in a run.
#![tactic(auto)]

mod laws;
mod refusal;

pub use laws::{
    deleted_rows, each_turn, inserted_rows, one_run, one_turn, refused_changes_nothing,
    rolled_back, stays_valid, three_values, whole_tables,
};
pub use refusal::Refusal;
