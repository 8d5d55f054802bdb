//! The built-in functions of arithmetic, as rows that look at their elements alone.
#![tactic(auto)]

mod answer;
mod comparisons;
mod element;
mod extremes;
mod factorials;
mod joining;
mod kind;
pub mod laws;
mod numbers;
mod powers;
mod products;
mod questions;
mod sums;

pub use comparisons::Relation;
pub use extremes::Extreme;
pub use kind::{Kind, apply};
pub use numbers::Measure;
pub use questions::Question;
