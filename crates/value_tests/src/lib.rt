//! Tests of values and operators by their public calls.
#![tactic(auto)]

#[cfg(test)]
mod classes;
#[cfg(test)]
mod given;
#[cfg(test)]
mod literals;
#[cfg(test)]
mod operators;
#[cfg(test)]
mod resolving;
