//! Messages and shown items.
#![tactic(auto)]

mod desk;
mod item;
pub mod laws;
mod message;
mod tally;
mod text;

pub use desk::Desk;
pub use item::Item;
