//! Tests of GIN indexes over pages in memory.
#![tactic(auto)]

#[cfg(test)]
mod arrays;
#[cfg(test)]
mod rows;
