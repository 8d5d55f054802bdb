//! Loops and branches, as questions that an evaluator answers.
#![tactic(auto)]

mod choices;
mod cursor;
mod families;
mod found;
mod iterations;
mod iterators;
mod junction;
mod kind;
mod loops;
mod nests;
mod place;
mod rows;
mod span;
mod step;

pub use cursor::Cursor;
pub use place::{Ask, Last};
