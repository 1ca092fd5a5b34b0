//! Tests of label paths, arrays and the queries over them by their public calls.
#![tactic(auto)]

#[cfg(test)]
mod intarr;
#[cfg(test)]
mod lquery;
#[cfg(test)]
mod ltree;
#[cfg(test)]
mod ltxtquery;
