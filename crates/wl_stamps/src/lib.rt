//! What an evaluation read and took: when it still holds, and how it is put together from its parts.
#![tactic(auto)]

pub mod laws;
mod liveness;
mod reads;
mod trial;

pub use liveness::live;
pub use reads::Reads;
pub use trial::{Trial, compose, seal};
