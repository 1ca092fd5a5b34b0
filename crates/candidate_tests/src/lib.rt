//! Tests of the queries of gx_candidates by the classes' own tests.
#![tactic(auto)]

#[cfg(test)]
mod asked;
#[cfg(test)]
mod classes;
#[cfg(test)]
mod given;
#[cfg(test)]
mod passes;
