//! Left sides of definitions: what is defined, by which kind of rule, and for which symbols.
#![tactic(auto)]

mod kinds;
pub mod laws;
mod left_side;
mod limits;
mod special;
mod tags;
mod targets;

pub use kinds::{Core, Target};
pub use left_side::core;
pub use limits::limit_allows;
pub use special::{Special, special_form};
pub use tags::{has_tag, tag_at};
pub use targets::target;
