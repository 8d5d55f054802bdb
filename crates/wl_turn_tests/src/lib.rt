//! Tests of what a turn of an evaluation uses: left sides and stamps.
#![tactic(auto)]

#[cfg(test)]
mod assign;
#[cfg(test)]
mod stamps;
#[cfg(test)]
mod trees;
