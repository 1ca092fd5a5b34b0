//! The way in which the program executes pieces.

use crate::executing::execute_statement;
use crate::reading::{Reading, read};
use crate::units::break_off;
use gx_engine::{Execute, Kind, Reply};
use gx_lexer::Piece;
use gx_pages::{PageError, Steps, Store};
use std::alloc::Global;
use std::sync::ledger::Ledger;

/// Executing pieces as statements on the pages of a store.
pub struct Statements;

impl Execute for Statements {
    fn execute<P: Store, L: Ledger>(
        alloc: Global,
        store: &mut P,
        kind: &mut Kind,
        piece: &Piece,
        steps: &mut Steps<L>,
    ) -> Result<Reply, PageError> {
        let reading = read(alloc, piece)?;
        match reading {
            Reading::Says(statement) => execute_statement(alloc, store, kind, &statement, steps),
            Reading::Refused(reply) => {
                break_off(store, kind);
                Ok(reply)
            }
        }
    }
}
