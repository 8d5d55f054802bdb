//! A session: a kernel, and what it answers to a cell.
ghost use Rattle.std.specs.Prelude.{◌≡◌, ◌⊎◌, true, false, IfOk, IsErr, OnOk, OnErr, string_bytes};
ghost use Rattle.wl_eval.specs.KernelView.{IsSound};
ghost use Rattle.wl_state.specs.Marks.{at_last_mark};
ghost use Rattle.wl_expr.specs.Stamped.{plain};
ghost use Rattle.wl_scan.specs.CellText.{cell_text};
ghost use Rattle.wl_scan.specs.Cells.{IsWithinCell};
ghost use Rattle.wl_session.specs.Answers.{IsAnswer, new_session, refusal};
ghost use Rattle.wl_session.specs.CellReading.{IsBare};
ghost use Rattle.wl_session.specs.Line.{line, shown_text, unwrapped};
ghost use Rattle.wl_session.specs.SessionView.{closed, state_of};
ghost use Rattle.wl_session.specs.Shown.{unwrapped_of};

use crate::cell_end::{CellEnd, evaluate_task};
use crate::counts::{Counts, counted};
use crate::fault::{LineFault, fault_line};
use crate::options::{Options, last_item, left_of, steps_for};
use crate::reading::read_cell;
use crate::shown::{Unwrapped, answer_of, lines_of, unwrap};
use crate::task::Task;
use std::alloc::Global;
use std::marker::Model;
use wl_eval::{Kernel, Line};
use wl_expr::Expr;
use wl_ports::{Ledger, Memory, Work};
use wl_rules::Store;
use wl_scan::Cell;

/// How a cell ends.
#[derive(Drop)]
pub enum LineEnd {
    Answered,
    /// It uses up no line number and changes nothing.
    Refused(LineFault),
    /// Its budget, or the total of all cells, ended.
    BudgetEnded,
}

/// A notebook under way.
///
/// After a call that answers `Memory`, each further `line` answers that.
#[derive(Drop)]
pub struct Session {
    alloc: Global,
    kernel: Kernel,
    options: Options,
    total_left: Option<u64>,
    counts: Counts,
    flawed: bool,
    dead: bool,
    pending: String,
}

impl Model for Session {
    ghost use Rattle.std.specs.Prelude.{◌≡◌, false, string_bytes};
    ghost use Rattle.wl_eval.specs.KernelView.{IsSound};
    ghost use Rattle.wl_session.specs.SessionView.{SessionView, session_code};

    ghost Value = { SessionView };

    ghost coded = { session_code };

    ghost view = { λ s. record {
      kernel = s.kernel;
      options = s.options;
      total_left = s.total_left;
      counts = s.counts;
      flawed = s.flawed;
      dead = s.dead;
      pending = string_bytes s.pending;
    } };

    ghost invariant = { λ s. s.dead ≡ false → IsSound s.kernel };
}

impl Session {
    /// A session before its first cell.
    pub fn new(alloc: Global, options: Options) -> Result<Session, Memory>
        ensures state { IfOk result (λ s. state_of s ≡ new_session options) }
        ensures alive { IfOk result (λ s. s.dead ≡ false) }
    {
        let kernel = Kernel::new(alloc, options.steps)?;
        Ok(Session {
            alloc,
            kernel,
            options,
            total_left: options.total,
            counts: Counts {
                cells: 0,
                refused: 0,
                steps: 0,
            },
            flawed: false,
            dead: false,
            pending: String::new(alloc),
        })
    }

    /// Answers the next cell. Its bytes are pending afterwards.
    pub fn line<L: Ledger>(&mut self, cell: Cell<'_>, work: &mut Work<L>) -> Result<LineEnd, Memory>
        requires { IsWithinCell (cell_text cell) }
        ensures answered { IfOk result (λ end.
            IsAnswer (cell_text cell.entry) (state_of self.old) (state_of self.new) end self.new.pending) }
        ensures sound { OnOk result (IsSound self.new.kernel) }
        ensures alive { OnOk result (self.new.dead ≡ false) }
        ensures dead { OnErr result (self.new.dead ≡ true) }
        ensures stays_dead { self.old.dead ≡ true → IsErr result }
        ensures history { OnErr result (self.new.kernel.lines ≡ self.old.kernel.lines) }
        ensures counts { OnErr result (self.new.counts ≡ self.old.counts) }
        ensures ticks { at_last_mark work.new ≡ at_last_mark work.old }
    {
        if self.dead {
            return Err(Memory);
        }
        // Until the answer is whole.
        self.dead = true;
        let end = self.answer(cell, work)?;
        self.dead = false;
        Ok(end)
    }

    /// The bytes of the last cell.
    pub fn pending(&self) -> &[u8]
        ensures { result.now ≡ self.now.pending }
    {
        self.pending.as_bytes()
    }

    /// The lines, from the first on. A refused cell has none.
    pub fn history(&self) -> &[Line]
        ensures { result.now ≡ self.now.kernel.lines }
    {
        self.kernel.history()
    }

    /// The definitions of all names.
    pub fn definitions(&self) -> &Store
        ensures { result.now ≡ self.now.kernel.store }
    {
        self.kernel.definitions()
    }

    pub fn counts(&self) -> Counts
        ensures { result ≡ self.now.counts }
    {
        self.counts
    }

    /// Whether some cell was refused, or its budget ended.
    pub(crate) fn is_flawed(&self) -> bool
        ensures { result ≡ self.now.flawed }
    {
        self.flawed
    }

    fn answer<L: Ledger>(&mut self, cell: Cell<'_>, work: &mut Work<L>) -> Result<LineEnd, Memory>
        requires cell { IsWithinCell (cell_text cell) }
        requires sound { IsSound self.old.kernel }
        requires dead { self.old.dead ≡ true }
        ensures answered { IfOk result (λ end.
            IsAnswer (cell_text cell.entry) (state_of self.old) (state_of self.new) end self.new.pending) }
        ensures sound { OnOk result (IsSound self.new.kernel) }
        ensures dead { self.new.dead ≡ self.old.dead }
        ensures history { OnErr result (self.new.kernel.lines ≡ self.old.kernel.lines) }
        ensures counts { OnErr result (self.new.counts ≡ self.old.counts) }
        ensures ticks { at_last_mark work.new ≡ at_last_mark work.old }
    {
        match read_cell(self.alloc, cell)? {
            Err(fault) => self.refuse(fault),
            Ok(input) => self.answer_read(&input, work),
        }
    }

    fn refuse(&mut self, fault: LineFault) -> Result<LineEnd, Memory>
        requires { IsSound self.old.kernel }
        ensures end { IfOk result (λ end. end ≡ (refusal fault (state_of self.old)).end) }
        ensures state { OnOk result (state_of self.new ≡ (refusal fault (state_of self.old)).session) }
        ensures pending { OnOk result (self.new.pending ≡ (refusal fault (state_of self.old)).pending) }
        ensures kernel { self.new.kernel ≡ self.old.kernel }
        ensures dead { self.new.dead ≡ self.old.dead }
        ensures counts { OnErr result (self.new.counts ≡ self.old.counts) }
    {
        let mut text = fault_line(self.alloc, &fault)?;
        text.push('\n')?;
        self.pending = text;
        self.counts = Counts {
            cells: counted(self.counts.cells, 1),
            refused: counted(self.counts.refused, 1),
            steps: self.counts.steps,
        };
        self.flawed = true;
        Ok(LineEnd::Refused(fault))
    }

    fn answer_read<L: Ledger>(
        &mut self,
        input: &Expr,
        work: &mut Work<L>,
    ) -> Result<LineEnd, Memory>
        requires bare { IsBare input.now }
        requires dead { self.old.dead ≡ true }
        ensures end { IfOk result (λ end. end ≡ (line (state_of self.old) (plain input.now)).end) }
        ensures state { OnOk result (state_of self.new ≡ (line (state_of self.old) (plain input.now)).session) }
        ensures pending { OnOk result (self.new.pending ≡ (line (state_of self.old) (plain input.now)).pending) }
        ensures sound { OnOk result (IsSound self.new.kernel) }
        ensures dead { self.new.dead ≡ self.old.dead }
        ensures history { OnErr result (self.new.kernel.lines ≡ self.old.kernel.lines) }
        ensures counts { OnErr result (self.new.counts ≡ self.old.counts) }
        ensures ticks { at_last_mark work.new ≡ at_last_mark work.old }
    {
        let alloc = self.alloc;
        let task = Task::of(alloc, input)?;
        let budget = steps_for(self.options, self.total_left);
        let number = self.kernel.history().len() as u128 + 1;
        let end = evaluate_task(alloc, &mut self.kernel, task.expr, budget, work)?;
        let value = unwrap(&end.value)?;
        let text = self.text(task.silent, number, &end, &value)?;
        self.kernel.put_line(input, &value.kept)?;
        self.pending = text;
        let taken = budget.saturating_sub(self.kernel.steps_left());
        self.close(taken, end.is_budget);
        Ok(if end.is_budget {
            LineEnd::BudgetEnded
        } else {
            LineEnd::Answered
        })
    }

    /// What is shown of a cell.
    fn text(
        &self,
        silent: bool,
        number: u128,
        end: &CellEnd,
        value: &Unwrapped,
    ) -> Result<String, Memory>
        requires { unwrapped_of value.now ≡ unwrapped (plain end.now.value) }
        ensures { IfOk result (λ text. string_bytes text
            ≡ shown_text self.now.options self.now.total_left silent number (plain end.now.value) end.now.is_budget self.now.kernel.desk.items) }
    {
        let last = last_item(self.alloc, self.options, self.total_left, end.is_budget)?;
        let answer = answer_of(
            self.alloc,
            silent,
            number,
            self.options.form,
            &end.value,
            value,
        )?;
        lines_of(self.alloc, self.kernel.shown(), last, answer)
    }

    /// Counts a cell that took so many steps.
    fn close(&mut self, taken: u64, is_budget: bool)
        ensures { self.new ≡ closed taken is_budget self.old }
    {
        self.total_left = left_of(self.total_left, taken);
        self.counts = Counts {
            cells: counted(self.counts.cells, 1),
            refused: self.counts.refused,
            steps: counted(self.counts.steps, taken),
        };
        self.flawed = self.flawed || is_budget;
    }
}
