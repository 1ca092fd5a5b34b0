//! Tests of the operator classes of GIN on worked values, and of indexes of seeded values.
#![tactic(auto)]

#[cfg(test)]
mod arrays;
#[cfg(test)]
mod candidates;
#[cfg(test)]
mod documents;
#[cfg(test)]
mod indexes;
#[cfg(test)]
mod items;
#[cfg(test)]
mod maps;
#[cfg(test)]
mod seeds;
