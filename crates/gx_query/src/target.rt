//! What a query asks of a table.

ghost use Rattle.std.specs.Prelude.{◌≡◌, ℕ, List, None, Some, IfOk, IfErr, MatchResult};
ghost use Rattle.gx_engine.specs.Engines.{reply_of};
ghost use Rattle.gx_model.specs.Checks.{Check, Find};
ghost use Rattle.gx_model.specs.Conditions.{BindsWhere};
ghost use Rattle.gx_model.specs.Refusals.{Refuses};
ghost use Rattle.gx_parse.specs.Said.{query_of};
ghost use Rattle.gx_parse.specs.Sound.{WhereHasLiterals};
ghost use Rattle.gx_target.specs.Places.{ArePlaces};
ghost use Rattle.gx_step.specs.Doing.{IsOrdinary};
ghost use Rattle.gx_query.specs.Answers.{Refused, checks_of};
ghost use Rattle.gx_query.specs.Walks.{IsFilter, condition_of};

use crate::filter::{Filter, filter_of};
use gx_engine::Reply;
use gx_model::Refusal;
use gx_pages::PageError;
use gx_parse::Select;
use gx_step::refused;
use gx_target::{Places, asked_places};
use gx_value::Column;
use std::alloc::Global;

/// The columns that a query asks for, and the rows.
#[derive(Drop)]
pub struct Target {
    pub places: Places,
    pub filter: Filter,
}

/// What a query asks of a table with these columns. The fault is E4 of the columns that it asks for, and then that of its condition.
pub fn target_of(alloc: Global, columns: &[Column], query: &Select) -> Result<Target, Refusal>
    requires { WhereHasLiterals (query_of query.now).condition }
    ensures answer { MatchResult result
        (λ target. Find (checks_of columns.now (query_of query.now)) None × BindsWhere columns.now (query_of query.now).condition (condition_of target.filter))
        (Refuses (checks_of columns.now (query_of query.now))) }
    ensures places { IfOk result (λ target. ArePlaces columns.now (query_of query.now).columns target.places.items) }
    ensures filter { IfOk result (λ target. IsFilter columns.now target.filter) }
{
    let places = asked_places(alloc, columns, query.columns.as_ref())?;
    let filter = filter_of(alloc, columns, query.condition.as_ref())?;
    Ok(Target { places, filter })
}

/// The reply to a statement that is refused. The error is Memory.
pub fn refuse(alloc: Global, refusal: Refusal) -> Result<Reply, PageError>
    ensures reply { IfOk result (λ reply. (checks : List Check) → Refuses checks refusal → Refused checks (reply_of reply)) }
    ensures ordinary { IfOk result (λ reply. IsOrdinary (reply_of reply)) }
    ensures err { IfErr result (λ e. e ≡ PageError.Memory) }
{
    match refusal {
        Refusal::Fault { number } => refused(alloc, number),
        Refusal::Memory => Err(PageError::Memory),
    }
}
