//! The words of the command line.
#![tactic(auto)]

mod command;
pub mod laws;
mod line;
mod number;
mod reading;

pub use line::{Form, Task, Words};
pub use reading::read;

#[cfg(test)]
mod tests;
