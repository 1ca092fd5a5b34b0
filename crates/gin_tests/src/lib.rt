//! Tests of the public calls of the crates below GIN.
#![tactic(auto)]

#[cfg(test)]
mod posting;
#[cfg(test)]
mod trees;
