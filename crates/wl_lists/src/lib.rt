//! The built-in functions on expressions, lists and strings, as rows that look at their elements alone.
#![tactic(auto)]

mod answer;
mod applying;
mod arrays;
mod element;
mod elements;
mod flattening;
mod functions;
mod joining;
mod kind;
pub mod laws;
mod partitions;
mod parts;
mod ranges;
mod segments;
mod strings;
mod transposing;

pub use kind::{Kind, apply};
