//! Module numbers, and the history.
ghost use Rattle.std.specs.Prelude.{◌≡◌, IfOk, Ok, false, option_copied, option_map};
ghost use Rattle.wl_expr.specs.Stamped.{plain};
ghost use Rattle.wl_state.specs.Played.{Plays, HonestMaybe, Sound};
ghost use Rattle.wl_semantics.specs.Prog as prog;
ghost use Rattle.wl_state.specs.Recall.{from_front, numbered};

use crate::evaluator::{Evaluator, Line};
use wl_expr::Expr;
use wl_ports::Memory;

impl Evaluator {
    /// The next module number. The last one is given again and again.
    pub fn draw_number(&mut self) -> u64
        ensures played { Plays (prog.asking prog.draw) self.old (Ok (prog.number result)) self.new false }
        ensures kept { self.new.steps ≡ self.old.steps }
    {
        self.modules = self.modules.saturating_add(1);
        self.log = None;
        self.modules
    }

    /// The value of a line, from 1 on, or for a number below 0 from the present line back.
    pub(crate) fn recall_value(&mut self, n: i128) -> Result<Option<Expr>, Memory>
        requires sound { Sound self.old }
        ensures played { IfOk result (λ o. Plays (prog.asking (prog.recall_value n)) self.old (Ok (prog.found (option_map plain o))) self.new false) }
        ensures honest { IfOk result (λ o. HonestMaybe self.new o) }
        ensures kept { self.new.steps ≡ self.old.steps }
    {
        self.log = None;
        match value_line(self.history.as_slice(), n) {
            None => Ok(None),
            Some(line) => Ok(Some(line.value.copy()?)),
        }
    }

    /// The input of a line, from 1 on.
    pub(crate) fn recall_input(&mut self, n: i128) -> Result<Option<Expr>, Memory>
        requires sound { Sound self.old }
        ensures played { IfOk result (λ o. Plays (prog.asking (prog.recall_input n)) self.old (Ok (prog.found (option_map plain o))) self.new false) }
        ensures honest { IfOk result (λ o. HonestMaybe self.new o) }
        ensures kept { self.new.steps ≡ self.old.steps }
    {
        self.log = None;
        match line_at(self.history.as_slice(), n) {
            None => Ok(None),
            Some(line) => Ok(Some(line.input.copy()?)),
        }
    }
}

/// The line of this number, from 1 on.
fn line_at(lines: &[Line], n: i128) -> Option<&Line>
    ensures { option_copied result ≡ from_front n lines.now }
{
    match usize::try_from(n) {
        Ok(0) => None,
        Ok(n) => lines.get(n - 1),
        Err(_) => None,
    }
}

/// The line of this number, or for a number below 0 from the present line back.
fn value_line(lines: &[Line], n: i128) -> Option<&Line>
    ensures { option_copied result ≡ numbered n lines.now }
{
    if n >= 0 {
        return line_at(lines, n);
    }
    line_at(lines, lines.len() as i128 + 1 + n)
}
