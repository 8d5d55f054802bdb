//! Runs, and what is still to be done, by places in pattern and subject.
ghost use Rattle.std.specs.Prelude.{◌≡◌, ◌++◌, ◌∷◌, [], Some, None, IfOk};

use crate::places::Places;
use std::alloc::Global;
use wl_ports::Memory;

/// An expression: a part of the subject or, below a root, of what this part of the pattern keeps. A step is 0 for the
/// head, or the number of an element, from 1.
#[derive(Drop)]
pub(crate) struct Place {
    pub root: Option<usize>,
    pub steps: Places,
}

/// A run of expressions.
#[derive(Drop)]
pub(crate) enum Taken {
    /// No expression, beside one that stands alone.
    Nothing,
    /// The expression at a place.
    Tree(Place),
    /// Elements of the node there: from which on, and how many.
    Slice(Place, usize, usize),
    /// Its elements at these places.
    Picked(Place, Places),
    /// These as one expression, under the head of a part of the pattern.
    Wrapped(usize, Place, Places),
}

/// What is still to be done. A number before a run is a part of the pattern.
#[derive(Drop)]
pub(crate) enum Goal {
    /// The part on the run.
    Match(usize, Taken),
    /// The alternatives of the part from one on.
    Members(usize, usize, Taken),
    /// The part on each expression of the run in turn.
    Turn(usize, Taken),
    /// The elements of the part from one on, on what is left.
    Elements(usize, usize, Taken),
    /// The same where the next run has at least so many, of so many lengths.
    Lengths(usize, usize, Taken, usize, usize),
    /// The same where it still takes so many, from a place on, beside those that are chosen and those
    /// that are passed over.
    Pick(usize, usize, Taken, usize, usize, Places, Places),
    /// The name of the part is bound to the run.
    Bind(usize, Taken),
    /// The test of the part is noted.
    Note(usize, Taken),
}

/// What a branch has bound or noted, by which part of the pattern.
#[derive(Drop)]
pub(crate) enum Mark {
    Bound(usize, Taken),
    Noted(usize, Taken),
}

/// A choice that is left: what is to be done, and how many cells and marks belong to it.
#[derive(Clone, Copy)]
pub(crate) struct Choice {
    pub goals: usize,
    pub cells: usize,
    pub marks: usize,
}

impl Place {
    pub fn top(alloc: Global) -> Place
        ensures { result ≡ record { root = None; steps = [] } }
    {
        Place {
            root: None,
            steps: Places::new(alloc),
        }
    }

    /// What a part of the pattern keeps.
    pub fn kept(alloc: Global, part: usize) -> Place
        ensures { result ≡ record { root = Some part; steps = [] } }
    {
        Place {
            root: Some(part),
            steps: Places::new(alloc),
        }
    }

    pub fn copy(&self) -> Result<Place, Memory>
        ensures { IfOk result (λ c. c ≡ self.now) }
    {
        Ok(Place {
            root: self.root,
            steps: self.steps.copy()?,
        })
    }

    pub fn below(&self, step: u32) -> Result<Place, Memory>
        ensures { IfOk result (λ p. p ≡ record { root = self.now.root; steps = self.now.steps ++ step ∷ [] }) }
    {
        Ok(Place {
            root: self.root,
            steps: self.steps.with(step)?,
        })
    }
}

impl Taken {
    pub fn copy(&self) -> Result<Taken, Memory>
        ensures { IfOk result (λ c. c ≡ self.now) }
    {
        match self {
            Taken::Nothing => Ok(Taken::Nothing),
            Taken::Tree(place) => Ok(Taken::Tree(place.copy()?)),
            Taken::Slice(place, from, count) => Ok(Taken::Slice(place.copy()?, *from, *count)),
            Taken::Picked(place, places) => Ok(Taken::Picked(place.copy()?, places.copy()?)),
            Taken::Wrapped(part, place, places) => {
                Ok(Taken::Wrapped(*part, place.copy()?, places.copy()?))
            }
        }
    }
}

impl Goal {
    pub fn copy(&self) -> Result<Goal, Memory>
        ensures { IfOk result (λ c. c ≡ self.now) }
    {
        match self {
            Goal::Match(i, run) => Ok(Goal::Match(*i, run.copy()?)),
            Goal::Members(i, from, run) => Ok(Goal::Members(*i, *from, run.copy()?)),
            Goal::Turn(i, run) => Ok(Goal::Turn(*i, run.copy()?)),
            Goal::Elements(i, j, run) => Ok(Goal::Elements(*i, *j, run.copy()?)),
            Goal::Lengths(i, j, run, low, count) => {
                Ok(Goal::Lengths(*i, *j, run.copy()?, *low, *count))
            }
            Goal::Pick(i, j, run, more, at, chosen, skipped) => Ok(Goal::Pick(
                *i,
                *j,
                run.copy()?,
                *more,
                *at,
                chosen.copy()?,
                skipped.copy()?,
            )),
            Goal::Bind(i, run) => Ok(Goal::Bind(*i, run.copy()?)),
            Goal::Note(i, run) => Ok(Goal::Note(*i, run.copy()?)),
        }
    }
}
