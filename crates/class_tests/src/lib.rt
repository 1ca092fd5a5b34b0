//! Tests of scalars and of the laws of index classes, by their public calls.
#![tactic(auto)]

#[cfg(test)]
mod class_inet;
#[cfg(test)]
mod class_range;
#[cfg(test)]
mod class_scalar;
#[cfg(test)]
mod gist;
#[cfg(test)]
mod scalar;
#[cfg(test)]
mod sig;
