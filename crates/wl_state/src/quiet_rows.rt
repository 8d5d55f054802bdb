//! The rows that hide messages and those that ask whether there were some.
ghost use Rattle.std.specs.Prelude.{◌≡◌, ◌≤◌, IfOk, Ok, false};
ghost use Rattle.wl_expr.specs.Stamped.{Stamped, plain};
ghost use Rattle.wl_state.specs.Endings.{quiet_end, unless_heard};
ghost use Rattle.wl_state.specs.Parts.{sized_row};
ghost use Rattle.wl_state.specs.Played.{Honest, HonestEnd, Played, Plays, Sound, end_of, found_tree, is_leaf};
ghost use Rattle.wl_semantics.specs.State.{Aborted};
ghost use Rattle.wl_state.specs.declared.evaluator.Evaluator.{Evaluator as Kernel};
ghost use Rattle.wl_state.specs.Marks.{at_last_mark};

use crate::ends::{End, Stop, valued};
use crate::evaluation::is_leaf;
use crate::evaluator::Evaluator;
use crate::messages::number_of;
use std::slice;
use wl_expr::Expr;
use wl_ports::{Ledger, Memory, Work};

/// What Check gives of an end: something else if a message was heard.
pub fn unless_heard(end: End, heard: bool, other: &Expr) -> Result<Option<Expr>, Stop>
    ensures { (k : Kernel) → HonestEnd k end → Honest k other.now
        → Played found_tree (sized_row (unless_heard (plain other.now) (end_of end, heard))) k result k }
{
    let v = valued(end)?;
    // That an expression is within the limits is a clause of `weight`.
    if heard {
        let _weight = other.weight();
        return Ok(Some(other.copy()?));
    }
    let _weight = v.weight();
    Ok(Some(v))
}

impl Evaluator {
    /// Issues the message of an evaluation past the limit of depth inside a Quiet.
    pub fn too_deep_quietly<L: Ledger>(&mut self, work: &mut Work<L>) -> Result<(), Memory>
        requires sound { Sound self.old }
        requires deep { self.old.recursion ≤ self.old.depth }
        ensures played { IfOk result (λ _. (e : Stamped) → is_leaf e ≡ false → Plays (quiet_end (plain e)) self.old (Ok Aborted) self.new false) }
        ensures kept { self.new.steps ≡ self.old.steps }
        ensures ticks { at_last_mark work.new ≡ at_last_mark work.old }
    {
        let limit = number_of(self.alloc, self.recursion)?;
        self.desk.quiet();
        self.desk.issue(
            &self.store,
            "$RecursionLimit",
            "reclim",
            slice::from_ref(&limit),
            work,
        )?;
        self.desk.unquiet();
        self.log = None;
        Ok(())
    }
}
