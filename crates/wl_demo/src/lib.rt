//! The demonstration: a notebook whose cells are made from its size alone, and what is written of its run.
#![tactic(auto)]

mod cell;
pub mod laws;
mod lines;
mod notebook;
#[cfg(test)]
mod tests;

pub use lines::summary;
pub use notebook::Notebook;
