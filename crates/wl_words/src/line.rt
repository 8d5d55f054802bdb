//! What a command line asks for.

/// How a value is written that has no form of its own.
#[derive(Clone, Copy, Debug, PartialEq, Eq)]
pub enum Form {
    Input,
    Full,
}

/// A notebook from standard input or from the file of this name, or a demonstration of so many cells.
#[derive(Clone, Copy, Debug, PartialEq, Eq)]
pub enum Task<'a> {
    StandardInput,
    File(&'a str),
    Demo(u64),
}

/// The steps of each cell, the steps of all cells together where they have an end, the form of the answers, and the task.
#[derive(Clone, Copy, Debug, PartialEq, Eq)]
pub struct Words<'a> {
    pub steps: u64,
    pub total: Option<u64>,
    pub form: Form,
    pub task: Task<'a>,
}
