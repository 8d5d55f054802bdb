//! The rows that show items and messages, and those that look at the history.
ghost use Rattle.std.specs.Prelude.{◌≡◌, ◌≤◌, ◌++◌, IfOk, IfSome, OnOk, Some, None, option_map, string_bytes, true, false};
ghost use Rattle.wl_desk.specs.MessageText.{argument_text};
ghost use Rattle.wl_expr.specs.Stamped.{plain};
ghost use Rattle.wl_expr.specs.Words.{fits, int_of};
ghost use Rattle.wl_ports.specs.Name.{IsName};
ghost use Rattle.wl_rules.specs.Entries.{message};
ghost use Rattle.wl_rules.specs.Stored.{definitions};
ghost use Rattle.wl_semantics.specs.MessageRows as rows;
ghost use Rattle.wl_state.specs.Operands.{IsTextMade, as_message, name_and_text, only_int, only_message, out_line};
ghost use Rattle.wl_state.specs.Parts.{sized_row};
ghost use Rattle.wl_state.specs.Played.{Played, Sound, found_tree, trees};
ghost use Rattle.wl_state.specs.Marks.{at_last_mark};

use crate::elements::is_symbol;
use crate::ends::Stop;
use crate::evaluator::Evaluator;
use crate::operands::null;
use std::alloc::Global;
use wl_expr::{Expr, ExprFault, Look};
use wl_form::input_form;
use wl_ports::{Ledger, Memory, Work};

/// Puts a text as it is behind what is there, and another expression in InputForm.
fn push_text(alloc: Global, out: &mut String, e: &Expr) -> Result<(), Memory>
    ensures { OnOk result (string_bytes out.new ≡ string_bytes out.old ++ argument_text (plain e.now)) }
{
    match e.view() {
        Look::Text(s) => Ok(out.push_str(s)?),
        _ => {
            let form = input_form(alloc, e)?;
            Ok(out.push_str(form.as_str())?)
        }
    }
}

/// The text of the expressions, one behind the other.
fn joined(alloc: Global, args: &[Expr]) -> Result<String, Memory>
    ensures { IfOk result (λ s. string_bytes s ≡ rows.joined (trees args.now)) }
{
    let mut text = String::new(alloc);
    for arg in args {
        push_text(alloc, &mut text, arg)?;
    }
    Ok(text)
}

/// The symbol and the tag of two elements that are a symbol and a text.
fn name_and_text(args: &[Expr]) -> Option<(&str, &str)>
    ensures value { option_map (λ p. as_message (p.0.now, p.1.now)) result ≡ name_and_text (trees args.now) }
    ensures name { IfSome result (λ p. IsName p.0.now) }
{
    let [symbol, tag] = args else {
        return None;
    };
    match symbol.view() {
        Look::Symbol(name) => match tag.view() {
            Look::Text(tag) => Some((name, tag)),
            _ => None,
        },
        _ => None,
    }
}

/// The symbol and the tag of `symbol::tag`.
pub(crate) fn message_name(e: &Expr) -> Option<(&str, &str)>
    ensures value { option_map (λ p. as_message (p.0.now, p.1.now)) result ≡ rows.message_name (plain e.now) }
    ensures name { IfSome result (λ p. IsName p.0.now) }
{
    let Look::Node(head, args) = e.view() else {
        return None;
    };
    if !is_symbol(head, "MessageName") {
        return None;
    }
    name_and_text(args)
}

/// The symbol and the tag of a single `symbol::tag`.
fn only_message(args: &[Expr]) -> Option<(&str, &str)>
    ensures { option_map (λ p. as_message (p.0.now, p.1.now)) result ≡ only_message (trees args.now) }
{
    let [e] = args else {
        return None;
    };
    message_name(e)
}

/// The integer that the expression is.
fn integer(e: &Expr) -> Option<i128>
    ensures { result ≡ int_of (plain e.now) }
{
    match e.view() {
        Look::Num(n) => { if n.den() == 1 { Some(n.num()) } else { None } }
        _ => None,
    }
}

/// The single integer of a row.
fn only_int(args: &[Expr]) -> Option<i128>
    ensures { result ≡ only_int (trees args.now) }
{
    let [e] = args else {
        return None;
    };
    integer(e)
}

/// The line that Out asks for: without an element the last one.
fn out_line(args: &[Expr]) -> Option<i128>
    ensures { result ≡ out_line (trees args.now) }
{
    if args.is_empty() {
        return Some(-1);
    }
    only_int(args)
}

/// The expression, of which it is known that it fits.
fn fitting(found: Option<Expr>) -> Option<Expr>
    ensures same { result ≡ found }
    ensures fits { IfSome result (λ e. fits (plain e) ≡ true) }
{
    match found {
        None => None,
        Some(e) => {
            // That an expression is within the limits is a clause of `weight`.
            let _weight = e.weight();
            Some(e)
        }
    }
}

impl Evaluator {
    /// The text of a message, where the symbol itself has it.
    fn stored_text<L: Ledger>(
        &self,
        name: &str,
        tag: &str,
        work: &mut Work<L>,
    ) -> Option<Result<Expr, ExprFault>>
        ensures made { IsTextMade (message (definitions self.now.store name.now) tag.now) result }
        ensures ticks { at_last_mark work.new ≡ at_last_mark work.old }
    {
        let Some(entry) = self.store.consult(name, work) else {
            return None;
        };
        match entry.message(tag) {
            None => None,
            Some(text) => Some(Expr::text(self.alloc, text)),
        }
    }

    /// Shows the elements, one behind the other, on a line.
    pub fn print_row(&mut self, args: &[Expr]) -> Result<Option<Expr>, Stop>
        ensures played { Played found_tree (sized_row (rows.print_row (trees args.now))) self.old result self.new }
        ensures falls { self.new.steps ≤ self.old.steps }
    {
        let text = joined(self.alloc, args)?;
        self.show(text.as_str())?;
        Ok(Some(null(self.alloc)?))
    }

    /// Issues the message that is named first, about what follows.
    pub fn message_row<L: Ledger>(
        &mut self,
        args: &[Expr],
        work: &mut Work<L>,
    ) -> Result<Option<Expr>, Stop>
        ensures played { Played found_tree (sized_row (rows.message_row (trees args.now))) self.old result self.new }
        ensures falls { self.new.steps ≤ self.old.steps }
        ensures ticks { at_last_mark work.new ≡ at_last_mark work.old }
    {
        let Some((first, rest)) = args.split_first() else {
            return Ok(None);
        };
        let Some((name, tag)) = message_name(first) else {
            return Ok(None);
        };
        self.issue(name, tag, rest, work)?;
        Ok(Some(null(self.alloc)?))
    }

    /// Switches a message off, or on again.
    fn switch(&mut self, off: bool, args: &[Expr]) -> Result<Option<Expr>, Stop>
        requires sound { Sound self.old }
        ensures played { Played found_tree (sized_row (rows.switch_by off (only_message (trees args.now)))) self.old result self.new }
        ensures kept { self.new.steps ≡ self.old.steps }
    {
        let Some((name, tag)) = only_message(args) else {
            return Ok(None);
        };
        self.set_off(name, tag, off)?;
        Ok(Some(null(self.alloc)?))
    }

    /// Hides each message from now on.
    pub fn off_row(&mut self, args: &[Expr]) -> Result<Option<Expr>, Stop>
        requires sound { Sound self.old }
        ensures played { Played found_tree (sized_row (rows.off_row (trees args.now))) self.old result self.new }
        ensures falls { self.new.steps ≤ self.old.steps }
    {
        self.switch(true, args)
    }

    /// Shows each message again.
    pub fn on_row(&mut self, args: &[Expr]) -> Result<Option<Expr>, Stop>
        requires sound { Sound self.old }
        ensures played { Played found_tree (sized_row (rows.on_row (trees args.now))) self.old result self.new }
        ensures falls { self.new.steps ≤ self.old.steps }
    {
        self.switch(false, args)
    }

    /// The text of a message, where there is one.
    pub fn message_name_row<L: Ledger>(
        &mut self,
        args: &[Expr],
        work: &mut Work<L>,
    ) -> Result<Option<Expr>, Stop>
        requires sound { Sound self.old }
        ensures played { Played found_tree (sized_row (rows.message_name_row (trees args.now))) self.old result self.new }
        ensures falls { self.new.steps ≤ self.old.steps }
        ensures ticks { at_last_mark work.new ≡ at_last_mark work.old }
    {
        let Some((name, tag)) = name_and_text(args) else {
            return Ok(None);
        };
        let _looked = self.attributes_of(name, work)?;
        match self.stored_text(name, tag, work) {
            None => Ok(None),
            Some(made) => self.given(made, work),
        }
    }

    /// The value of a line of the history.
    pub fn out_row(&mut self, args: &[Expr]) -> Result<Option<Expr>, Stop>
        requires sound { Sound self.old }
        ensures played { Played found_tree (sized_row (rows.out_row (trees args.now))) self.old result self.new }
        ensures falls { self.new.steps ≤ self.old.steps }
    {
        let Some(n) = out_line(args) else {
            return Ok(None);
        };
        let found = self.recall_value(n)?;
        Ok(fitting(found))
    }

    /// What was evaluated at a line of the history.
    pub fn in_row(&mut self, args: &[Expr]) -> Result<Option<Expr>, Stop>
        requires sound { Sound self.old }
        ensures played { Played found_tree (sized_row (rows.in_row (trees args.now))) self.old result self.new }
        ensures falls { self.new.steps ≤ self.old.steps }
    {
        let Some(n) = only_int(args) else {
            return Ok(None);
        };
        let found = self.recall_input(n)?;
        Ok(fitting(found))
    }
}
