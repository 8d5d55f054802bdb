//! Tests of loops and branches.
#![tactic(auto)]

#[cfg(test)]
mod control;
