//! Tests of sources, disks, the log and pages by their public calls.
#![tactic(auto)]

#[cfg(test)]
mod disks;
#[cfg(test)]
mod logs;
#[cfg(test)]
mod pages;
#[cfg(test)]
mod sources;
