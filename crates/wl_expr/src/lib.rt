//! Expressions: shared trees of numbers, texts, symbols and nodes, their size and their order.
#![tactic(auto)]

mod applied;
mod expr;
mod fault;
mod hash;
pub mod laws;
mod look;
mod order;
mod same;
mod stamp;

pub use applied::{Applied, Notice};
pub use expr::{Expr, copy_all};
pub use fault::ExprFault;
pub use look::Look;
pub use order::sort;
pub use stamp::{ReadList, Stamp};
