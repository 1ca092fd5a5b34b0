//! Tests of slot pages, chains, heaps and lists of rows, through their public calls.
#![tactic(auto)]

#[cfg(test)]
mod bitmaps;
#[cfg(test)]
mod chains;
#[cfg(test)]
mod heaps;
#[cfg(test)]
mod places;
#[cfg(test)]
mod slots;
