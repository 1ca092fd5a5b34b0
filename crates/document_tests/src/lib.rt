//! Tests of maps and documents by their public calls.
#![tactic(auto)]

#[cfg(test)]
mod hstore;
#[cfg(test)]
mod json;
