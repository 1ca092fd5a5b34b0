//! Tests of bytes, ranges and addresses by their public calls.
#![tactic(auto)]

#[cfg(test)]
mod bytes;
#[cfg(test)]
mod inet;
#[cfg(test)]
mod range;
