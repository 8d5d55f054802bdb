//! Evaluation: the recursion of turns, and the kernel over it.
#![tactic(auto)]

mod applying;
mod built_in;
mod control_rows;
mod elements;
mod end_rows;
mod evaluation;
mod guard;
mod kernel;
mod left_sides;
mod match_rows;
mod matching;
mod quiet_rows;
mod replace_rows;
mod scope_rows;
mod set_rows;
mod tag_rows;
mod trial;
mod turn;
mod update_rows;

pub use kernel::Kernel;
pub use wl_desk::Item;
pub use wl_state::evaluator::Line;
pub use wl_state::outcome::Outcome;
