//! Which rule applies to a form.
ghost use Rattle.std.specs.Prelude.{◌≡◌, ◌≤◌};
ghost use Rattle.wl_expr.specs.Stamped.{plain};
ghost use Rattle.wl_state.specs.Parts.{head_place};
ghost use Rattle.wl_state.specs.Played.{Honest, Played, Sound, found_tree};
ghost use Rattle.wl_semantics.specs.Turn as turn;
ghost use Rattle.wl_state.specs.Marks.{at_last_mark};

use crate::built_in::built_in;
use crate::trial::trial;
use wl_expr::{Expr, Look};
use wl_ports::{Ledger, Work};
use wl_rules::{Attribute, Attributes, RuleKind};
use wl_state::applying::{head_place, up_symbols};
use wl_state::ends::Stop;
use wl_state::evaluator::Evaluator;

/// The result of the first rule that applies: up values, then down or sub values, then the built-in rule.
#[cycle(eval)]
pub(crate) fn applied_rule<L: Ledger>(
    evaluator: &mut Evaluator,
    attributes: Attributes,
    form: &Expr,
    work: &mut Work<L>,
) -> Result<Option<Expr>, Stop>
    requires sound { Sound evaluator.old }
    requires honest { Honest evaluator.old form.now }
    ensures played { Played found_tree (turn.applied_rule attributes (plain form.now)) evaluator.old result evaluator.new }
    ensures falls { evaluator.new.steps ≤ evaluator.old.steps }
    ensures ticks { at_last_mark work.new ≡ at_last_mark work.old }
{
    let up = up_values(evaluator, attributes, form, work)?;
    if let Some(e) = up {
        return Ok(Some(e));
    }
    let by_head = head_values(evaluator, form, work)?;
    if let Some(e) = by_head {
        return Ok(Some(e));
    }
    built_in(evaluator, form, work)
}

/// The result of the first up rule that applies.
#[cycle(eval)]
fn up_values<L: Ledger>(
    evaluator: &mut Evaluator,
    attributes: Attributes,
    form: &Expr,
    work: &mut Work<L>,
) -> Result<Option<Expr>, Stop>
    requires sound { Sound evaluator.old }
    requires honest { Honest evaluator.old form.now }
    ensures played { Played found_tree (turn.up_values attributes (plain form.now)) evaluator.old result evaluator.new }
    ensures falls { evaluator.new.steps ≤ evaluator.old.steps }
    ensures ticks { at_last_mark work.new ≡ at_last_mark work.old }
{
    if attributes.has(Attribute::HoldAllComplete) {
        return Ok(None);
    }
    let symbols = up_symbols(evaluator.alloc, form)?;
    for i in 0..symbols.len() {
        let Look::Symbol(name) = symbols[i].view() else {
            continue;
        };
        let found = tried(evaluator, RuleKind::Up, name, form, work)?;
        if let Some(e) = found {
            return Ok(Some(e));
        }
    }
    Ok(None)
}

/// The result of the first down or sub rule that applies.
#[cycle(eval)]
fn head_values<L: Ledger>(
    evaluator: &mut Evaluator,
    form: &Expr,
    work: &mut Work<L>,
) -> Result<Option<Expr>, Stop>
    requires sound { Sound evaluator.old }
    requires honest { Honest evaluator.old form.now }
    ensures played { Played found_tree (turn.head_values (plain form.now)) evaluator.old result evaluator.new }
    ensures falls { evaluator.new.steps ≤ evaluator.old.steps }
    ensures ticks { at_last_mark work.new ≡ at_last_mark work.old }
{
    match head_place(form) {
        None => Ok(None),
        Some((kind, name)) => tried(evaluator, kind, name, form, work),
    }
}

/// A trial of the rules of a kind that a symbol has now.
#[cycle(eval)]
pub(crate) fn tried<L: Ledger>(
    evaluator: &mut Evaluator,
    kind: RuleKind,
    name: &str,
    e: &Expr,
    work: &mut Work<L>,
) -> Result<Option<Expr>, Stop>
    requires sound { Sound evaluator.old }
    requires honest { Honest evaluator.old e.now }
    ensures played { Played found_tree (turn.tried kind name.now (plain e.now)) evaluator.old result evaluator.new }
    ensures falls { evaluator.new.steps ≤ evaluator.old.steps }
    ensures ticks { at_last_mark work.new ≡ at_last_mark work.old }
{
    let rules = evaluator.rules_of(name, kind, work)?;
    trial(evaluator, &rules, e, work)
}
