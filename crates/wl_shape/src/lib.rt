//! What a turn does to the elements of a node, and what stands in a body where names are filled.
#![tactic(auto)]

mod arrangement;
mod element;
mod filling;
pub mod laws;
mod names;
mod reaching;
mod renaming;
mod renewal;
mod runs;
mod scopes;
mod splicing;
mod threading;
mod values;
mod walk;

pub use arrangement::{Shaped, arrange};
pub use filling::{fill, rename, replace};
