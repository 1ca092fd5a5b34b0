//! Words that the contracts of several crates share. The crate has definitions alone, in its specs.
#![tactic(auto)]
