//! How the evaluation of a cell ends.
ghost use Rattle.std.specs.Prelude.{◌≡◌, true, false, IfOk, OnOk, OnErr};
ghost use Rattle.wl_eval.specs.KernelView.{Honest, HonestOutcome, state_of};
ghost use Rattle.wl_state.specs.Outcomes.{end_of};
ghost use Rattle.wl_state.specs.Marks.{at_last_mark};
ghost use Rattle.wl_expr.specs.Stamped.{plain};
ghost use Rattle.wl_expr.specs.Words.{aborted_symbol};
ghost use Rattle.wl_session.specs.CellReading.{IsBare};
ghost use Rattle.wl_session.specs.Line.{cell_end, end_of_task, ended_by};

use std::alloc::Global;
use wl_eval::{Kernel, Outcome};
use wl_expr::{Expr, ExprFault};
use wl_ports::{Ledger, Memory, Work};

/// The value of a cell, and whether its budget ended.
#[derive(Drop)]
pub(crate) struct CellEnd {
    pub(crate) value: Expr,
    pub(crate) is_budget: bool,
}

impl CellEnd {
    fn of(value: Expr) -> CellEnd
        ensures value { result.value ≡ value }
        ensures is_budget { result.is_budget ≡ false }
    {
        CellEnd {
            value,
            is_budget: false,
        }
    }
}

/// Evaluates the task of a cell with so many steps.
pub(crate) fn evaluate_task<L: Ledger>(
    alloc: Global,
    kernel: &mut Kernel,
    task: Expr,
    budget: u64,
    work: &mut Work<L>,
) -> Result<CellEnd, Memory>
    requires { IsBare task }
    ensures end { IfOk result (λ e. cell_end (plain e.value) e.is_budget (state_of kernel.new)
        ≡ end_of_task (plain task) budget (state_of kernel.old)) }
    ensures honest { IfOk result (λ e. Honest kernel.new e.value) }
    ensures lines { kernel.new.lines ≡ kernel.old.lines }
    ensures ticks { at_last_mark work.new ≡ at_last_mark work.old }
{
    kernel.refill(budget);
    let outcome = kernel.evaluate(task, work)?;
    end_of(alloc, kernel, outcome)
}

/// The value of a cell whose evaluation ended so.
fn end_of(alloc: Global, kernel: &mut Kernel, outcome: Outcome) -> Result<CellEnd, Memory>
    requires { HonestOutcome kernel.old outcome }
    ensures end { IfOk result (λ e. cell_end (plain e.value) e.is_budget (state_of kernel.new)
        ≡ ended_by (end_of outcome) (state_of kernel.old)) }
    ensures honest { IfOk result (λ e. Honest kernel.new e.value) }
    ensures lines { kernel.new.lines ≡ kernel.old.lines }
{
    match outcome {
        Outcome::Value(value) => Ok(CellEnd::of(value)),
        Outcome::Thrown(value, tag) => match tag {
            None => Ok(CellEnd::of(kernel.uncaught(&value, None)?)),
            Some(tag) => Ok(CellEnd::of(kernel.uncaught(&value, Some(&tag))?)),
        },
        Outcome::Aborted => Ok(CellEnd::of(aborted(alloc)?)),
        Outcome::BudgetEnded => Ok(CellEnd {
            value: aborted(alloc)?,
            is_budget: true,
        }),
    }
}

/// `$Aborted`.
fn aborted(alloc: Global) -> Result<Expr, Memory>
    ensures tree { IfOk result (λ e. plain e ≡ aborted_symbol) }
    ensures bare { IfOk result (λ e. IsBare e) }
{
    match Expr::symbol(alloc, "$Aborted") {
        Ok(symbol) => Ok(symbol),
        Err(ExprFault::Memory) => Err(Memory),
        Err(ExprFault::Large) => unreachable!(),
    }
}
