//! Rows of loops and branches, played from question to question.
ghost use Rattle.std.specs.Prelude.{◌≡◌, List, IfOk, Err};
ghost use Rattle.wl_control.specs.Cursors.{stand, IsHeldFrom};
ghost use Rattle.wl_control.specs.Places.{AskIsFrom, plain_ask};
ghost use Rattle.wl_control.specs.Stand.{IsAwaited, after};
ghost use Rattle.wl_expr.specs.Stamped.{Stamped};
ghost use Rattle.wl_state.specs.Replies.{IsPosed, IsRefused, ReplyIsFrom, told_by};
ghost use Rattle.wl_state.specs.declared.ends.Stop.{Stop};
ghost use Rattle.wl_state.specs.declared.evaluator.Evaluator.{Evaluator};
ghost use Rattle.wl_state.specs.Marks.{at_last_mark};

use crate::ends::Stop;
use crate::evaluator::Evaluator;
use crate::replies::{Reply, lent};
use wl_control::{Ask, Cursor};
use wl_ports::{Ledger, Work};

impl Evaluator {
    /// The next question of a row.
    pub fn asked<L: Ledger>(
        &mut self,
        cursor: &mut Cursor,
        reply: &Reply,
        work: &mut Work<L>,
    ) -> Result<Ask, Stop>
        requires { IsAwaited (stand cursor.old) (told_by reply.now) }
        ensures posed { IfOk result (λ q. IsPosed (after (stand cursor.old) (told_by reply.now)) (plain_ask q) (stand cursor.new)) }
        ensures same { IfOk result (λ _. self.new ≡ self.old) }
        ensures passed { (ms : List Stamped) → IsHeldFrom ms cursor.old → ReplyIsFrom ms reply.now
            → IfOk result (λ q. AskIsFrom ms q × IsHeldFrom ms cursor.new) }
        ensures refused { (e : Stop) → result ≡ Err e → IsRefused (after (stand cursor.old) (told_by reply.now)) self.old e self.new }
        ensures kept { self.new.steps ≡ self.old.steps }
        ensures ticks { at_last_mark work.new ≡ at_last_mark work.old }
    {
        let asked = cursor.next(lent(reply));
        match asked {
            Ok(ask) => Ok(ask),
            Err(fault) => Err(self.fault(fault, work)),
        }
    }
}
