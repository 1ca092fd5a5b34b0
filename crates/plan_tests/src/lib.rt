//! Tests of plans over catalogs that are made by hand.
#![tactic(auto)]

#[cfg(test)]
mod catalogs;
#[cfg(test)]
mod plans;
