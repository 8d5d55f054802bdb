//! A walk through a search: what is to be done, what was bound and noted, and the choices that are left.
ghost use Rattle.std.specs.Prelude.{length, reverse};
ghost use Rattle.wl_match.specs.Nested.{IsWhole, IsWhole-prop};

use crate::stack::Stack;
use crate::taken::Choice;
use crate::trace::Trace;
use std::alloc::Global;

#[derive(Drop)]
pub(crate) struct Walk {
    pub alloc: Global,
    pub stack: Stack,
    pub goals: usize,
    pub trail: Trace,
    pub choices: Vec<Choice>,
    ghost nested: { IsWhole goals (length stack.cells.items) (length trail.all.items) (reverse choices.items) } by { IsWhole-prop _ _ _ _ },
}
