//! What a search answers.

/// The next leaf of a search.
#[derive(Clone, Copy, Debug, PartialEq, Eq)]
pub enum Leaf {
    /// A branch that fails.
    Fail,
    /// A binding, with its tests.
    Candidate,
    /// There are no more leaves.
    End,
}

/// How one step of a search went.
#[derive(Clone, Copy)]
pub(crate) enum Step {
    Went,
    Failed,
}
