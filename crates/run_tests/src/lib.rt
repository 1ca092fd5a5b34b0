//! Tests of whole runs over a host in memory.
#![tactic(auto)]

#[cfg(test)]
mod answers;
#[cfg(test)]
mod portions;
#[cfg(test)]
mod refusals;
#[cfg(test)]
mod running;
#[cfg(test)]
mod script;
#[cfg(test)]
mod sources;
#[cfg(test)]
mod stops;
