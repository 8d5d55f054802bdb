//! Matches: searches from binding to binding, and their tests.
ghost use Rattle.std.specs.Prelude.{◌≡◌, ◌≤◌, ◌<◌, ◌+◌, IfOk, true};
ghost use Rattle.wl_expr.specs.Stamped.{plain};
ghost use Rattle.wl_match.specs.Left.{Searches, left};
ghost use Rattle.wl_state.specs.Played.{Played};
ghost use Rattle.wl_state.specs.Searching.{next_binding, next_found};
ghost use Rattle.wl_state.specs.Marks.{at_last_mark};

use crate::ends::Stop;
use crate::evaluator::Evaluator;
use wl_expr::Expr;
use wl_match::{Leaf, Machine, Pattern};
use wl_ports::{Ledger, Work};

impl Evaluator {
    /// Goes on to the next binding, where there is one. Each leaf on the way takes a step.
    pub fn next_candidate<L: Ledger>(
        &mut self,
        machine: &mut Machine,
        pattern: &Pattern,
        e: &Expr,
        work: &mut Work<L>,
    ) -> Result<bool, Stop>
        requires { Searches pattern.now (plain e.now) machine.old }
        ensures played { Played (next_binding pattern.now (plain e.now) machine.new)
            (next_found (left pattern.now (plain e.now) machine.old)) self.old result self.new }
        ensures searches { Searches pattern.now (plain e.now) machine.new }
        ensures falls { self.new.steps ≤ self.old.steps }
        ensures less { IfOk result (λ b. b ≡ true → self.new.steps + 1 ≤ self.old.steps) }
        ensures ticks { at_last_mark work.new ≡ at_last_mark work.old }
    {
        'leaves: loop {
            let leaf = machine.next(pattern, e, work)?;
            match leaf {
                Leaf::End => return Ok(false),
                Leaf::Fail => self.take_step()?,
                Leaf::Candidate => {
                    self.take_step()?;
                    return Ok(true);
                }
            }
        }
    }
}
