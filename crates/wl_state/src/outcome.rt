//! How an evaluation that was asked for ends.
ghost use Rattle.std.specs.Prelude.{◌≡◌, IfOk, OnOk, Ok, Err, true, false, option_map, option_copied};
ghost use Rattle.wl_expr.specs.Stamped.{plain};
ghost use Rattle.wl_expr.specs.Words.{fits};
ghost use Rattle.wl_expr.specs.declared.fault.ExprFault.TheVariants as fault;
ghost use Rattle.wl_state.specs.Outcomes.{HonestOutcomeIn, call_node, end_of, held_node, throw_node, thrown_tree};
ghost use Rattle.wl_semantics.specs.Outcome as spec;
ghost use Rattle.wl_state.specs.Played as played;
ghost use Rattle.wl_state.specs.Played.{Honest, HonestEnd, HonestMaybe, Makes, Plays};
ghost use Rattle.wl_state.specs.declared.evaluator.Evaluator.{Evaluator};
ghost use Rattle.wl_ports.specs.Name.{IsName};
ghost use Rattle.wl_state.specs.Marks.{at_last_mark};

use crate::ends::End;
use crate::evaluator::Evaluator;
use crate::operands::symbol;
use std::alloc::Global;
use std::slice;
use wl_expr::{Expr, ExprFault};
use wl_ports::{Ledger, Memory, Work};

/// The end of an evaluation.
#[derive(Drop)]
pub enum Outcome {
    Value(Expr),
    /// A Throw that nothing caught, and its tag where it has one.
    Thrown(Expr, Option<Expr>),
    Aborted,
    BudgetEnded,
}

/// The outcome of an evaluation that ended so: a Break or Continue that nothing caught is held as a value.
pub fn outcome_of(alloc: Global, end: End) -> Result<Outcome, Memory>
    ensures end { IfOk result (λ o. end_of o ≡ spec.outcome (played.end_of end)) }
    ensures honest { (k : Evaluator) → HonestEnd k end → IfOk result (λ o. HonestOutcomeIn k.store o) }
{
    match end {
        End::Value(v) => Ok(Outcome::Value(v)),
        End::Thrown(v, t) => Ok(Outcome::Thrown(v, t)),
        End::Aborted => Ok(Outcome::Aborted),
        End::BudgetEnded => Ok(Outcome::BudgetEnded),
        End::Broke => {
            let e = held_call(alloc, "Break")?;
            Ok(Outcome::Value(e))
        }
        End::Continued => {
            let e = held_call(alloc, "Continue")?;
            Ok(Outcome::Value(e))
        }
    }
}

/// `Hold[f[]]` of a short name f.
fn held_call(alloc: Global, name: &str) -> Result<Expr, Memory>
    requires { IsName name.now }
    ensures { IfOk result (λ e. e ≡ held_node (call_node name.now)) }
{
    let head = symbol(alloc, name)?;
    let Ok(call) = Expr::node(alloc, &head, &[]) else {
        return Err(Memory);
    };
    match held(alloc, &call) {
        Ok(e) => Ok(e),
        Err(_) => Err(Memory),
    }
}

/// `Hold[e]`.
pub fn held(alloc: Global, e: &Expr) -> Result<Expr, ExprFault>
    ensures made { Makes (spec.held (plain e.now)) result }
    ensures node { IfOk result (λ h. h ≡ held_node e.now) }
{
    let head = symbol(alloc, "Hold")?;
    Expr::node(alloc, &head, slice::from_ref(e))
}

/// `Throw[v]`, or `Throw[v, t]` with a tag.
pub fn thrown(alloc: Global, value: &Expr, tag: Option<&Expr>) -> Result<Expr, ExprFault>
    ensures made { Makes (thrown_tree value.now (option_copied tag.entry)) result }
    ensures node { IfOk result (λ e. e ≡ throw_node value.now (option_copied tag.entry)) }
{
    let head = symbol(alloc, "Throw")?;
    match tag {
        None => Expr::node(alloc, &head, slice::from_ref(value)),
        Some(tag) => {
            let args = [value.copy()?, tag.copy()?];
            Expr::node(alloc, &head, &args)
        }
    }
}

/// A Throw that nothing caught, as its message has it, and held.
#[derive(Drop)]
struct Uncaught {
    thrown: Expr,
    held: Expr,
}

impl Uncaught {
    /// `Large` where it would be too large once it is held.
    pub fn of(alloc: Global, value: &Expr, tag: Option<&Expr>) -> Result<Uncaught, ExprFault>
        ensures thrown { IfOk result (λ u. u.thrown ≡ throw_node value.now (option_copied tag.entry)) }
        ensures held { IfOk result (λ u. u.held ≡ held_node (throw_node value.now (option_copied tag.entry))) }
        ensures fits { OnOk result (fits (spec.held (thrown_tree value.now (option_copied tag.entry))) ≡ true) }
        ensures large { result ≡ Err fault.Large → fits (spec.held (thrown_tree value.now (option_copied tag.entry))) ≡ false }
    {
        let thrown = thrown(alloc, value, tag)?;
        let held = held(alloc, &thrown)?;
        // That an expression is within the limits is a clause of `weight`.
        let _weight = held.weight();
        Ok(Uncaught { thrown, held })
    }
}

impl Evaluator {
    /// The value of a cell that ended by a Throw which nothing caught, with its message.
    pub fn uncaught<L: Ledger>(
        &mut self,
        value: &Expr,
        tag: Option<&Expr>,
        work: &mut Work<L>,
    ) -> Result<Expr, Memory>
        requires value { Honest self.old value.now }
        requires tag { HonestMaybe self.old (option_copied tag) }
        ensures played { IfOk result (λ e.
            Plays (spec.uncaught (plain value.now) (option_map plain (option_copied tag.entry))) self.old (Ok (plain e)) self.new false) }
        ensures honest { IfOk result (λ e. Honest self.new e) }
        ensures ticks { at_last_mark work.new ≡ at_last_mark work.old }
    {
        match Uncaught::of(self.alloc, value, tag) {
            Ok(uncaught) => {
                self.issue("Throw", "nocatch", slice::from_ref(&uncaught.thrown), work)?;
                Ok(uncaught.held)
            }
            Err(ExprFault::Memory) => Err(Memory),
            Err(ExprFault::Large) => {
                self.issue("General", "large", &[], work)?;
                symbol(self.alloc, "$Aborted")
            }
        }
    }
}
