//! Bytes to cells, and the text of a cell to tokens.
#![tactic(auto)]

mod cells;
mod characters;
mod found;
pub mod laws;
mod lengths;
mod numbers;
mod place;
mod signs;
mod token;
mod tokens;

pub use cells::{Cell, Cells, Fed};
pub use numbers::literal_value;
pub use token::{Kind, ScanFault, ScanKind, Token};
pub use tokens::Tokens;
