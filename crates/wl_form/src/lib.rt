//! Expressions to text.
#![tactic(auto)]

mod boxed;
mod full;
mod heads;
mod input;
pub mod laws;
mod leaves;
mod operator;
mod page;
mod word;
mod words;
mod writer;

pub use boxed::boxes;
pub use full::full_form;
pub use input::input_form;
pub use operator::{Infix, Marks, Postfix, Prefix, Row};
