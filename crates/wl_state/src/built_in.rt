//! The built-in rule of a form.
ghost use Rattle.std.specs.Prelude.{◌≡◌, IfOk, Ok, false};
ghost use Rattle.wl_expr.specs.Applied as answers;
ghost use Rattle.wl_expr.specs.Applied.{plain_notice};
ghost use Rattle.wl_state.specs.Kinds.{begins_capital};
ghost use Rattle.wl_state.specs.Parts.{Answers, HonestApplied, sized_row};
ghost use Rattle.wl_state.specs.Played.{Played, Plays, found_tree};
ghost use Rattle.wl_semantics.specs.PureRows as pure;
ghost use Rattle.wl_state.specs.Marks.{at_last_mark};

use crate::ends::Stop;
use crate::evaluator::Evaluator;
use std::slice;
use wl_expr::{Applied, Expr, ExprFault, Notice};
use wl_ports::{Ledger, Memory, Work};

/// Whether a name begins as each of a built-in function does.
pub fn begins_capital(name: &str) -> bool
    ensures { result ≡ begins_capital name.now }
{
    match name.as_bytes().first() {
        Some(byte) => *byte >= b'A' && *byte <= b'Z',
        None => false,
    }
}

impl Evaluator {
    /// What a row that looks at its elements alone gives, with its message.
    pub fn answered<L: Ledger>(
        &mut self,
        answer: Result<Applied, ExprFault>,
        work: &mut Work<L>,
    ) -> Result<Option<Expr>, Stop>
        requires honest { IfOk answer (HonestApplied self.old) }
        ensures played { (a : answers.Applied) → Answers a answer → Played found_tree (sized_row (pure.applied_by a)) self.old result self.new }
        ensures kept { self.new.steps ≡ self.old.steps }
        ensures ticks { at_last_mark work.new ≡ at_last_mark work.old }
    {
        match answer {
            Err(fault) => Err(self.fault(fault, work)),
            Ok(Applied::Unchanged) => Ok(None),
            Ok(Applied::Gives(e)) => Ok(Some(e)),
            Ok(Applied::Notice(notice, e)) => {
                self.notify(notice, work)?;
                Ok(Some(e))
            }
            Ok(Applied::Told(notice)) => {
                self.notify(notice, work)?;
                Ok(None)
            }
        }
    }

    /// Issues the message of a notice.
    fn notify<L: Ledger>(&mut self, notice: Notice, work: &mut Work<L>) -> Result<(), Memory>
        ensures played { IfOk result (λ _. Plays (pure.notify (plain_notice notice)) self.old (Ok tt) self.new false) }
        ensures kept { self.new.steps ≡ self.old.steps }
        ensures ticks { at_last_mark work.new ≡ at_last_mark work.old }
    {
        match notice {
            Notice::Overflow => self.issue("General", "ovfl", &[], work),
            Notice::Infinite(e) => self.issue("Power", "infy", slice::from_ref(&e), work),
            Notice::Indeterminate(e) => self.issue("Power", "indet", slice::from_ref(&e), work),
            Notice::NoPart(index, e) => self.issue("Part", "partw", &[index, e], work),
        }
    }
}
