//! Trees of texts: the one right tree of a cell's tokens, or why there is none, and the expression that it stands for.
#![tactic(auto)]

mod atoms;
mod build;
mod cell;
mod chain;
mod fault;
pub mod laws;
mod lexer;
mod lower;
mod machine;
mod operator;
mod parser;
mod tags;
mod terms;
mod token;

pub use cell::parse;
pub use fault::SyntaxFault;
