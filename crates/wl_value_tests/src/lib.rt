//! Tests of the outside, of numbers and of expressions.
#![tactic(auto)]

#[cfg(test)]
mod exact;
#[cfg(test)]
mod expr;
#[cfg(test)]
mod ports;
