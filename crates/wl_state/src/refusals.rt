//! What is refused, and the messages that say so.
ghost use Rattle.std.specs.Prelude.{◌≡◌, IfOk, Ok, false};
ghost use Rattle.wl_expr.specs.Stamped.{plain};
ghost use Rattle.wl_expr.specs.Tree.{symbol};
ghost use Rattle.wl_semantics.specs.Definitions as definitions;
ghost use Rattle.wl_semantics.specs.LeftSides.{is_limit};
ghost use Rattle.wl_state.specs.Played.{Plays};
ghost use Rattle.wl_state.specs.Marks.{at_last_mark};

use crate::evaluator::Evaluator;
use wl_expr::Expr;
use wl_ports::{Ledger, Memory, Work};

/// Whether the name is that of one of the two limits.
pub(crate) fn is_limit(name: &str) -> bool
    ensures { result ≡ is_limit name.now }
{
    match name {
        "$RecursionLimit" => true,
        "$IterationLimit" => true,
        _ => false,
    }
}

impl Evaluator {
    /// Issues the message of a limit that isn't set to a value.
    pub(crate) fn refuse_limit<L: Ledger>(
        &mut self,
        name: &str,
        subject: &Expr,
        value: &Expr,
        work: &mut Work<L>,
    ) -> Result<(), Memory>
        requires { plain subject.now ≡ symbol name.now }
        ensures played { IfOk result (λ _. Plays (definitions.limset name.now (plain value.now)) self.old (Ok tt) self.new false) }
        ensures kept { self.new.steps ≡ self.old.steps }
        ensures ticks { at_last_mark work.new ≡ at_last_mark work.old }
    {
        let args = [subject.copy()?, value.copy()?];
        self.issue(name, "limset", &args, work)
    }
}
