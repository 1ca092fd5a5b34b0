//! Tests of catalogs, through their public calls.
#![tactic(auto)]

#[cfg(test)]
mod changes;
#[cfg(test)]
mod growth;
#[cfg(test)]
mod hostile_chains;
#[cfg(test)]
mod hostile_items;
#[cfg(test)]
mod laying;
#[cfg(test)]
mod making;
