//! Tests of the cutter and of the grammar by their public calls.
#![tactic(auto)]

#[cfg(test)]
mod cutting;
#[cfg(test)]
mod grouping;
#[cfg(test)]
mod places;
#[cfg(test)]
mod statements;
