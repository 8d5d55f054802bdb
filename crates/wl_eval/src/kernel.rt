//! The kernel: definitions, history and messages, and evaluations over them.
ghost use Rattle.std.specs.Prelude.{◌≡◌, false, true, Ok, IfOk, OnOk, OnErr, IsErr, option_map, option_copied};
ghost use Rattle.wl_expr.specs.Stamped.{plain};
ghost use Rattle.wl_semantics.specs.Eval.{Go};
ghost use Rattle.wl_eval.specs.KernelView.{Honest, HonestMaybe, HonestOutcome, IsSound, state_of, refilled_view, with_line_view};
ghost use Rattle.wl_state.specs.Outcomes.{end_of};
ghost use Rattle.wl_state.specs.Marks.{at_last_mark};
ghost use Rattle.wl_semantics.specs.Outcome.{evaluated, uncaught, new_state, refilled_state, with_line};

use crate::evaluation::evaluate;
use std::alloc::Global;
use std::marker::Model;
use wl_desk::{Desk, Item};
use wl_expr::Expr;
use wl_ports::{Ledger, Memory, NoLedger, Work};
use wl_rules::Store;
use wl_state::evaluator::{Evaluator, Line};
use wl_state::outcome::{Outcome, outcome_of};

/// What evaluations have in common: the definitions, the history, what the present cell shows, and the steps that are left.
///
/// After a call that answers `Memory` it is dead: each call that may want memory answers that from then on.
#[derive(Drop)]
pub struct Kernel {
    evaluator: Evaluator,
    /// The lines of the evaluator's history. It has them for its looks; these are shown, whatever becomes of it where memory runs out.
    history: Vec<Line>,
    dead: bool,
}

impl Model for Kernel {
    ghost use Rattle.std.specs.Prelude.{◌≡◌, false};
    ghost use Rattle.wl_eval.specs.KernelView.{KernelView, IsIdle, kernel_code, view_of};

    ghost Value = { KernelView };

    ghost coded = { kernel_code };

    ghost view = { λ k. view_of k.evaluator k.history.items k.dead };

    ghost invariant = { λ k. k.dead ≡ false → IsIdle k.evaluator k.history.items };
}

/// A line that shares these.
fn line_of(input: &Expr, value: &Expr) -> Result<Line, Memory>
    ensures { IfOk result (λ l. l ≡ record { input = input.now; value = value.now }) }
{
    let input = input.copy()?;
    let value = value.copy()?;
    Ok(Line { input, value })
}

impl Kernel {
    /// A kernel with the definitions of the start.
    pub fn new(alloc: Global, steps: u64) -> Result<Kernel, Memory>
        ensures state { IfOk result (λ k. state_of k ≡ new_state steps) }
        ensures sound { IfOk result (λ k. IsSound k) }
        ensures alive { IfOk result (λ k. k.dead ≡ false) }
    {
        let store = Store::new(alloc)?;
        Ok(Kernel {
            evaluator: Evaluator {
                alloc,
                store,
                desk: Desk::new(alloc),
                history: Vec::new(alloc),
                modules: 0,
                steps,
                depth: 0,
                recursion: 200,
                iteration: 1_000,
                log: None,
            },
            history: Vec::new(alloc),
            dead: false,
        })
    }

    /// Evaluates an expression with the steps that are left.
    pub fn evaluate<L: Ledger>(&mut self, e: Expr, work: &mut Work<L>) -> Result<Outcome, Memory>
        requires { Honest self.old e }
        ensures end { IfOk result (λ o. end_of o ≡ (evaluated (plain e) (state_of self.old)).result) }
        ensures state { OnOk result (state_of self.new ≡ (evaluated (plain e) (state_of self.old)).state) }
        ensures honest { IfOk result (λ o. HonestOutcome self.new o) }
        ensures sound { OnOk result (IsSound self.new) }
        ensures alive { OnOk result (self.new.dead ≡ false) }
        ensures dead { OnErr result (self.new.dead ≡ true) }
        ensures stays_dead { self.old.dead ≡ true → IsErr result }
        ensures lines { self.new.lines ≡ self.old.lines }
        ensures ticks { at_last_mark work.new ≡ at_last_mark work.old }
    {
        if self.dead {
            return Err(Memory);
        }
        // Until the outcome is whole.
        self.dead = true;
        let Ok(end) = evaluate(&mut self.evaluator, e, work) else {
            return Err(Memory);
        };
        let outcome = outcome_of(self.evaluator.alloc, end)?;
        self.dead = false;
        Ok(outcome)
    }

    /// Begins a cell with so many steps. What the cell before showed is forgotten.
    pub fn refill(&mut self, steps: u64)
        ensures view { self.new ≡ refilled_view steps self.old }
        ensures state { state_of self.new ≡ refilled_state steps (state_of self.old) }
    {
        self.evaluator.desk.refill();
        self.evaluator.steps = steps;
    }

    /// Keeps a line of the history.
    pub fn put_line(&mut self, input: &Expr, value: &Expr) -> Result<(), Memory>
        requires input { Honest self.old input.now }
        requires value { Honest self.old value.now }
        ensures view { OnOk result
            (self.new ≡ with_line_view (record { input = input.now; value = value.now }) self.old) }
        ensures state { OnOk result
            (state_of self.new ≡ with_line (plain input.now) (plain value.now) (state_of self.old)) }
        ensures sound { OnOk result (IsSound self.new) }
        ensures alive { OnOk result (self.new.dead ≡ false) }
        ensures dead { OnErr result (self.new.dead ≡ true) }
        ensures stays_dead { self.old.dead ≡ true → IsErr result }
        ensures lines { OnErr result (self.new.lines ≡ self.old.lines) }
    {
        if self.dead {
            return Err(Memory);
        }
        // Until the line is kept.
        self.dead = true;
        let shared = line_of(input, value)?;
        let line = line_of(input, value)?;
        self.evaluator.history.push(shared)?;
        self.history.push(line)?;
        self.dead = false;
        Ok(())
    }

    /// The value of a cell that ended by a Throw which nothing caught. Its message is issued.
    pub fn uncaught(&mut self, value: &Expr, tag: Option<&Expr>) -> Result<Expr, Memory>
        requires value { Honest self.old value.now }
        requires tag { HonestMaybe self.old (option_copied tag) }
        ensures value { IfOk result (λ e.
            (Go (uncaught (plain value.now) (option_map plain (option_copied tag.entry))) (state_of self.old)).result ≡ Ok (plain e)) }
        ensures state { OnOk result (state_of self.new
            ≡ (Go (uncaught (plain value.now) (option_map plain (option_copied tag.entry))) (state_of self.old)).state) }
        ensures honest { IfOk result (λ e. Honest self.new e) }
        ensures sound { OnOk result (IsSound self.new) }
        ensures alive { OnOk result (self.new.dead ≡ false) }
        ensures dead { OnErr result (self.new.dead ≡ true) }
        ensures stays_dead { self.old.dead ≡ true → IsErr result }
        ensures lines { self.new.lines ≡ self.old.lines }
    {
        if self.dead {
            return Err(Memory);
        }
        // Until the value is there.
        self.dead = true;
        let mut work = Work::new(NoLedger);
        let e = self.evaluator.uncaught(value, tag, &mut work)?;
        self.dead = false;
        Ok(e)
    }

    /// The definitions of all names.
    pub fn definitions(&self) -> &Store
        ensures { result.now ≡ self.now.store }
    {
        &self.evaluator.store
    }

    /// What the present cell has shown.
    pub fn shown(&self) -> &[Item]
        ensures { result.now ≡ self.now.desk.items }
    {
        self.evaluator.desk.items()
    }

    pub fn steps_left(&self) -> u64
        ensures { result ≡ self.now.steps }
    {
        self.evaluator.steps
    }

    /// The lines, from the first on.
    pub fn history(&self) -> &[Line]
        ensures { result.now ≡ self.now.lines }
    {
        &self.history
    }
}
