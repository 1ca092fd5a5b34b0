//! Tests of indexes on pages, through their public calls.
#![tactic(auto)]

#[cfg(test)]
mod numbers;
#[cfg(test)]
mod searches;
