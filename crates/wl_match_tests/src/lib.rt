//! Tests of the match search, and of what is made of nodes and bodies.
#![tactic(auto)]

#[cfg(test)]
mod search;
#[cfg(test)]
mod shape;
