//! Tests of trees of keys on pages, through their public calls.
#![tactic(auto)]

#[cfg(test)]
mod trees;
