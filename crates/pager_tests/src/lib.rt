//! Tests of the pager over a host in memory.
#![tactic(auto)]

#[cfg(test)]
mod calls;
#[cfg(test)]
mod hostile;
#[cfg(test)]
mod stops;
