//! Exact numbers: fractions of whole numbers in lowest terms, whose parts have 127 bits and a sign.
#![tactic(auto)]

pub mod laws;
mod num;
mod whole;

pub use num::{Num, NumFault};
