//! The rows that define, and those that take a definition away.
ghost use Rattle.std.specs.Prelude.{◌≡◌, ◌∷◌, [], IfOk, IfSome, None, Ok, codes, false, length, option_map};
ghost use Rattle.std.specs.List.{All};
ghost use Rattle.wl_expr.specs.Stamped.{plain, symbol};
ghost use Rattle.wl_expr.specs.Tree as tree;
ghost use Rattle.wl_ports.specs.Name.{IsName};
ghost use Rattle.wl_rules.specs.Stored.{Stored};
ghost use Rattle.wl_state.specs.Honest.{HonestIn};
ghost use Rattle.wl_state.specs.Played.{Plays, trees};
ghost use Rattle.wl_state.specs.Operands.{as_message};
ghost use Rattle.wl_state.specs.Prepared.{message_text, refusal_name, same_shape};
ghost use Rattle.wl_semantics.specs.Prog as prog;
ghost use Rattle.wl_state.specs.Marks.{at_last_mark};

use crate::evaluator::Evaluator;
use crate::history_rows::message_name;
use crate::operands::{list_elements, null, symbol};
use std::alloc::Global;
use wl_expr::{Expr, Look};
use wl_ports::{Ledger, Memory, Work};

/// What a delayed definition gives.
pub fn refusal(alloc: Global, is_refused: bool) -> Result<Expr, Memory>
    ensures { IfOk result (λ e. e ≡ symbol None (refusal_name is_refused)) }
{
    if is_refused {
        symbol(alloc, "$Failed")
    } else {
        null(alloc)
    }
}

/// The symbol and the tag of a left side `symbol::tag`, and the text that it is set to.
pub fn message_text<'a>(left: &'a Expr, value: &'a Expr) -> Option<(&'a str, &'a str, &'a str)>
    ensures text { option_map (λ p. (as_message (p.0.now, p.1.now), p.2.now)) result ≡ message_text (plain left.now) (plain value.now) }
    ensures name { IfSome result (λ p. IsName p.0.now) }
    ensures value { IfSome result (λ p. plain value.now ≡ tree.text p.2.now) }
{
    let Look::Text(text) = value.view() else {
        return None;
    };
    let Some((name, tag)) = message_name(left) else {
        return None;
    };
    Some((name, tag, text))
}

/// The elements of a list of so many.
pub fn same_shape(count: usize, value: &Expr) -> Option<&[Expr]>
    ensures value { option_map (λ ts. trees ts.now) result ≡ same_shape count (plain value.now) }
    ensures count { IfSome result (λ ts. length ts.now ≡ count) }
    ensures honest { (a : Stored) → HonestIn a value.now → IfSome result (λ ts. All (HonestIn a) ts.now) }
{
    let Some(values) = list_elements(value) else {
        return None;
    };
    if count == values.len() {
        Some(values)
    } else {
        None
    }
}

impl Evaluator {
    /// Tells that a list of left sides has no value of its own shape.
    pub fn tell_shape<L: Ledger>(
        &mut self,
        left: &Expr,
        value: &Expr,
        work: &mut Work<L>,
    ) -> Result<(), Memory>
        ensures played { IfOk result (λ _. Plays (prog.message (codes "Set") (codes "shape") (plain left.now ∷ plain value.now ∷ []))
            self.old (Ok tt) self.new false) }
        ensures kept { self.new.steps ≡ self.old.steps }
        ensures ticks { at_last_mark work.new ≡ at_last_mark work.old }
    {
        let args = [left.copy()?, value.copy()?];
        self.issue("Set", "shape", &args, work)
    }
}
