//! The session: a notebook of cells is read, and each cell is answered.
#![tactic(auto)]

mod cell_end;
mod counts;
mod fault;
pub mod laws;
mod options;
mod reading;
mod session;
mod shown;
mod streaming;
mod task;
mod top;
mod words;

pub use counts::Counts;
pub use fault::LineFault;
pub use options::{Form, Options};
pub use session::{LineEnd, Session};
pub use top::{Ended, run};
pub use wl_eval::Line;
