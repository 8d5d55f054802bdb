//! The leaves of a match search: what a pattern may bind in a subject, in order.
#![tactic(auto)]

mod cuts;
mod elements;
mod flags;
mod forms;
mod heads;
mod items;
pub mod laws;
mod leaf;
mod lent;
mod looks;
mod machine;
mod part;
mod pattern;
mod places;
mod size;
mod sorts;
mod stack;
mod steps;
mod taken;
mod trace;
mod view;
mod viewing;
mod walk;
mod walking;

pub use flags::Flags;
pub use heads::{head_at, head_count};
pub use leaf::Leaf;
pub use lent::Run;
pub use machine::Machine;
pub use pattern::Pattern;
pub use view::{Test, View};
