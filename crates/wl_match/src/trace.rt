//! What a branch has bound and noted, with the places of both.
ghost use Rattle.std.specs.Prelude.{◌≡◌, ◌++◌, ◌∷◌, ◌<◌, [], get_or, length, take, slice_get, MatchResult};
ghost use Rattle.std.specs.Option.{option_map};
ghost use Rattle.wl_match.specs.Listed.{Rises, below, is_bound, is_noted, noted_in, places_of};

use crate::taken::{Mark, Taken};
use std::alloc::Global;
use wl_ports::Memory;

/// What a branch has bound and noted, in order, and the places of the ones and of the others.
#[derive(Drop)]
pub(crate) struct Trace {
    pub all: Vec<Mark>,
    pub bound: Vec<usize>,
    pub noted: Vec<usize>,
    ghost bound_listed: { bound.items ≡ places_of is_bound 0 all.items },
    ghost noted_listed: { noted.items ≡ places_of is_noted 0 all.items },
}

/// The same, lent.
#[derive(Clone, Copy)]
pub(crate) struct LentTrace<'m> {
    pub all: &'m [Mark],
    pub bound: &'m [usize],
    pub noted: &'m [usize],
    ghost bound_listed: { bound.now ≡ places_of is_bound 0 all.now },
    ghost noted_listed: { noted.now ≡ places_of is_noted 0 all.now },
}

/// How many of these places are before one.
fn count_before(places: &[usize], len: usize) -> usize
    ensures { Rises 0 places.now → take result places.now ≡ below len places.now }
{
    let mut n = places.len();
    while n > 0 && places[n - 1] >= len {
        n -= 1;
    }
    n
}

/// Only the places before one stay.
fn cut(places: &mut Vec<usize>, len: usize)
    ensures { Rises 0 places.old.items → places.new.items ≡ below len places.old.items }
{
    let n = count_before(places.as_slice(), len);
    places.truncate(n);
}

fn is_noted(mark: &Mark) -> bool
    ensures { result ≡ is_noted mark.now }
{
    match mark {
        Mark::Bound(_, _) => false,
        Mark::Noted(_, _) => true,
    }
}

/// Adds a mark, and its place to these.
fn put(all: &mut Vec<Mark>, places: &mut Vec<usize>, mark: Mark) -> Result<(), Memory>
    ensures { MatchResult result
        (λ _. (all.new.items ≡ all.old.items ++ mark ∷ []) × (places.new.items ≡ places.old.items ++ length all.old.items ∷ []))
        (λ _. (all.new.items ≡ all.old.items) × (places.new.items ≡ places.old.items)) }
{
    let count = places.len();
    places.push(all.len())?;
    if all.push(mark).is_err() {
        places.truncate(count);
        return Err(Memory);
    }
    Ok(())
}

impl Trace {
    pub fn new(alloc: Global) -> Trace
        ensures { result.all.items ≡ [] }
    {
        Trace {
            all: Vec::new(alloc),
            bound: Vec::new(alloc),
            noted: Vec::new(alloc),
        }
    }

    pub fn len(&self) -> usize
        ensures { result ≡ length self.now.all.items }
    {
        self.all.len()
    }

    pub fn push(&mut self, mark: Mark) -> Result<(), Memory>
        ensures { MatchResult result (λ _. self.new.all.items ≡ self.old.all.items ++ mark ∷ [])
            (λ _. self.new.all.items ≡ self.old.all.items) }
    {
        if is_noted(&mark) {
            put(&mut self.all, &mut self.noted, mark)
        } else {
            put(&mut self.all, &mut self.bound, mark)
        }
    }

    /// Only the oldest marks stay.
    pub fn truncate(&mut self, len: usize)
        ensures { self.new.all.items ≡ take len self.old.all.items }
    {
        self.all.truncate(len);
        cut(&mut self.bound, len);
        cut(&mut self.noted, len);
    }

    pub fn as_lent(&self) -> LentTrace<'_>
        ensures { result.all.now ≡ self.now.all.items }
    {
        LentTrace {
            all: self.all.as_slice(),
            bound: self.bound.as_slice(),
            noted: self.noted.as_slice(),
        }
    }
}

impl<'m> LentTrace<'m> {
    /// The mark at a place.
    pub fn at(&self, place: usize) -> &'m Mark
        requires { place < length self.now.all.now }
        ensures { result.now ≡ get_or self.now.all.now place result.now }
    {
        &self.all[place]
    }

    pub fn none() -> LentTrace<'m>
        ensures { result.all.now ≡ [] }
    {
        LentTrace {
            all: &[],
            bound: &[],
            noted: &[],
        }
    }

    /// The test with this number, from 0: its part, and its run.
    pub fn test(&self, k: u32) -> Option<(usize, &'m Taken)>
        ensures { option_map (λ n. (n.0, n.1.now)) result ≡ slice_get (noted_in self.now.all.now) k }
    {
        let at = match self.noted.get(k as usize) {
            Some(at) => *at,
            None => return None,
        };
        match self.at(at) {
            Mark::Noted(i, run) => Some((*i, run)),
            Mark::Bound(_, _) => None,
        }
    }
}
