//! Messages and shown items, and what is too large.
ghost use Rattle.std.specs.Prelude.{◌≡◌, IfOk, Ok, [], ◌∷◌, false, codes};
ghost use Rattle.wl_expr.specs.Stamped.{plain};
ghost use Rattle.wl_expr.specs.Tree.{Tree};
ghost use Rattle.wl_expr.specs.Words.{natural};
ghost use Rattle.wl_semantics.specs.LeftSides.{recursion_limit, iteration_limit};
ghost use Rattle.wl_state.specs.Played.{Played, Plays, FaultStops, Makes, TooLarge, built, trees};
ghost use Rattle.wl_semantics.specs.Prog as prog;
ghost use Rattle.wl_state.specs.Marks.{at_last_mark};

use crate::ends::Stop;
use crate::evaluator::Evaluator;
use std::alloc::Global;
use std::slice;
use wl_exact::Num;
use wl_expr::{Expr, ExprFault};
use wl_ports::{Ledger, Memory, Work};

/// The expression of a number.
pub(crate) fn number_of(alloc: Global, n: u32) -> Result<Expr, Memory>
    ensures { IfOk result (λ e. plain e ≡ natural n) }
{
    let Some(number) = Num::int(i128::from(n)) else {
        unreachable!()
    };
    Expr::num(alloc, number)
}

impl Evaluator {
    /// Issues a message.
    pub fn issue<L: Ledger>(
        &mut self,
        symbol: &str,
        tag: &str,
        args: &[Expr],
        work: &mut Work<L>,
    ) -> Result<(), Memory>
        ensures played { IfOk result (λ _. Plays (prog.message symbol.now tag.now (trees args.now)) self.old (Ok tt) self.new false) }
        ensures kept { self.new.steps ≡ self.old.steps }
        ensures ticks { at_last_mark work.new ≡ at_last_mark work.old }
    {
        self.desk.issue(&self.store, symbol, tag, args, work)?;
        self.log = None;
        Ok(())
    }

    /// Shows an item.
    pub(crate) fn show(&mut self, item: &str) -> Result<(), Memory>
        ensures played { IfOk result (λ _. Plays (prog.doing (prog.show item.now)) self.old (Ok tt) self.new false) }
        ensures kept { self.new.steps ≡ self.old.steps }
    {
        self.desk.print(item)?;
        self.log = None;
        Ok(())
    }

    /// Issues a message with a number as its argument.
    fn issue_number<L: Ledger>(
        &mut self,
        symbol: &str,
        tag: &str,
        number: u32,
        work: &mut Work<L>,
    ) -> Result<(), Memory>
        ensures played { IfOk result (λ _. Plays (prog.message symbol.now tag.now (natural number ∷ [])) self.old (Ok tt) self.new false) }
        ensures kept { self.new.steps ≡ self.old.steps }
        ensures ticks { at_last_mark work.new ≡ at_last_mark work.old }
    {
        let number = number_of(self.alloc, number)?;
        self.issue(symbol, tag, slice::from_ref(&number), work)
    }

    /// Issues the message of an evaluation past the limit of depth.
    pub fn too_deep<L: Ledger>(&mut self, work: &mut Work<L>) -> Result<(), Memory>
        ensures played { IfOk result (λ _. Plays (prog.message recursion_limit (codes "reclim") (natural self.old.recursion ∷ [])) self.old (Ok tt) self.new false) }
        ensures kept { self.new.steps ≡ self.old.steps }
        ensures ticks { at_last_mark work.new ≡ at_last_mark work.old }
    {
        let number = self.recursion;
        self.issue_number("$RecursionLimit", "reclim", number, work)
    }

    /// Issues the message of a turn past the limit of turns.
    pub fn too_many_turns<L: Ledger>(&mut self, work: &mut Work<L>) -> Result<(), Memory>
        ensures played { IfOk result (λ _. Plays (prog.message iteration_limit (codes "itlim") (natural self.old.iteration ∷ [])) self.old (Ok tt) self.new false) }
        ensures kept { self.new.steps ≡ self.old.steps }
        ensures ticks { at_last_mark work.new ≡ at_last_mark work.old }
    {
        let number = self.iteration;
        self.issue_number("$IterationLimit", "itlim", number, work)
    }

    /// Issues the message of an expression that is too large, and gives the stop.
    pub(crate) fn large<L: Ledger>(&mut self, work: &mut Work<L>) -> Stop
        ensures played { TooLarge self.old result self.new }
        ensures kept { self.new.steps ≡ self.old.steps }
        ensures ticks { at_last_mark work.new ≡ at_last_mark work.old }
    {
        match self.issue("General", "large", &[], work) {
            Ok(()) => Stop::Aborted,
            Err(_) => Stop::Memory,
        }
    }

    /// The stop of a fault, with its message where an expression would be too large.
    pub fn fault<L: Ledger>(&mut self, fault: ExprFault, work: &mut Work<L>) -> Stop
        ensures played { FaultStops fault self.old result self.new }
        ensures kept { self.new.steps ≡ self.old.steps }
        ensures ticks { at_last_mark work.new ≡ at_last_mark work.old }
    {
        match fault {
            ExprFault::Memory => Stop::Memory,
            ExprFault::Large => self.large(work),
        }
    }

    /// An expression that was made, whose size is tested.
    pub fn fitted<L: Ledger>(
        &mut self,
        made: Result<Expr, ExprFault>,
        work: &mut Work<L>,
    ) -> Result<Expr, Stop>
        ensures played { (t : Tree) → Makes t made → Played (built t) (prog.sized t) self.old result self.new }
        ensures made { IfOk result (λ e. made ≡ Ok e) }
        ensures same { IfOk result (λ _. self.new ≡ self.old) }
        ensures kept { self.new.steps ≡ self.old.steps }
        ensures ticks { at_last_mark work.new ≡ at_last_mark work.old }
    {
        match made {
            Ok(e) => {
                // That an expression is within the limits is a clause of `weight`.
                let _weight = e.weight();
                Ok(e)
            }
            Err(fault) => Err(self.fault(fault, work)),
        }
    }
}
