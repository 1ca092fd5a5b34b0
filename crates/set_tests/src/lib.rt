//! Tests of trees over the classes of sets, label paths, ranges and networks, through their public calls.
#![tactic(auto)]

#[cfg(test)]
mod maps;
#[cfg(test)]
mod networks;
#[cfg(test)]
mod numbers;
#[cfg(test)]
mod paths;
#[cfg(test)]
mod ranges;
#[cfg(test)]
mod seeded;
#[cfg(test)]
mod trees;
