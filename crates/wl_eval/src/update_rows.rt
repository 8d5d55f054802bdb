//! The rows that give a symbol a new value made of its old one.
ghost use Rattle.std.specs.Prelude.{◌≡◌, ◌≤◌};
ghost use Rattle.wl_expr.specs.Stamped.{plain};
ghost use Rattle.wl_semantics.specs.Definitions as definitions;
ghost use Rattle.wl_state.specs.Parts.{sized_row};
ghost use Rattle.wl_state.specs.Played.{AllHonest, Honest, Played, Sound, found_tree, trees};
ghost use Rattle.wl_state.specs.Prepared.{kept, one, updated};
ghost use Rattle.wl_state.specs.Marks.{at_last_mark};

use crate::evaluation::{value_of, value_of_built};
use wl_expr::Expr;
use wl_ports::{Ledger, Work};
use wl_state::ends::Stop;
use wl_state::evaluator::Evaluator;
use wl_state::operands::{only, two};
use wl_state::update_rows::{Update, chosen, of_made, one, updated};

/// Sets a symbol to a new value, which is made of its old one, where it has one.
#[cycle(eval)]
fn changing<L: Ledger>(
    evaluator: &mut Evaluator,
    update: Update,
    keeps_old: bool,
    subject: &Expr,
    by: &Expr,
    work: &mut Work<L>,
) -> Result<Option<Expr>, Stop>
    requires sound { Sound evaluator.old }
    requires subject { Honest evaluator.old subject.now }
    requires by { Honest evaluator.old by.now }
    ensures played { Played found_tree (sized_row (definitions.changing (λ o v. kept keeps_old o v) (λ o. updated update o (plain by.now))
        (plain subject.now))) evaluator.old result evaluator.new }
    ensures falls { evaluator.new.steps ≤ evaluator.old.steps }
    ensures ticks { at_last_mark work.new ≡ at_last_mark work.old }
{
    let old = value_of(evaluator, subject, work)?;
    if old.same(subject) {
        return Ok(None);
    }
    let made = updated(evaluator.alloc, update, &old, by);
    let assignment = of_made(evaluator.alloc, "Set", subject, made);
    let new = value_of_built(evaluator, assignment, work)?;
    Ok(Some(chosen(keeps_old, old, new)))
}

/// A row of a symbol and what its value is changed by.
#[cycle(eval)]
pub(crate) fn update_row<L: Ledger>(
    evaluator: &mut Evaluator,
    update: Update,
    args: &[Expr],
    work: &mut Work<L>,
) -> Result<Option<Expr>, Stop>
    requires sound { Sound evaluator.old }
    requires args { AllHonest evaluator.old args.now }
    ensures played { Played found_tree (sized_row (definitions.changing_by (λ o v. updated update o v) (trees args.now)))
        evaluator.old result evaluator.new }
    ensures falls { evaluator.new.steps ≤ evaluator.old.steps }
    ensures ticks { at_last_mark work.new ≡ at_last_mark work.old }
{
    let Some((subject, by)) = two(args) else {
        return Ok(None);
    };
    changing(evaluator, update, false, subject, by, work)
}

/// A row of a symbol whose value grows by 1, or by -1.
#[cycle(eval)]
pub(crate) fn step_row<L: Ledger>(
    evaluator: &mut Evaluator,
    keeps_old: bool,
    is_negative: bool,
    args: &[Expr],
    work: &mut Work<L>,
) -> Result<Option<Expr>, Stop>
    requires sound { Sound evaluator.old }
    requires args { AllHonest evaluator.old args.now }
    ensures played { Played found_tree (sized_row (definitions.stepping (λ o v. kept keeps_old o v) (one is_negative) (trees args.now)))
        evaluator.old result evaluator.new }
    ensures falls { evaluator.new.steps ≤ evaluator.old.steps }
    ensures ticks { at_last_mark work.new ≡ at_last_mark work.old }
{
    let Some(subject) = only(args) else {
        return Ok(None);
    };
    let by = one(evaluator.alloc, is_negative)?;
    changing(evaluator, Update::Plus, keeps_old, subject, &by, work)
}
