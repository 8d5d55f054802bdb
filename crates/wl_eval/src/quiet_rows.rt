//! The rows that hide messages and those that ask whether there were some.
ghost use Rattle.std.specs.Prelude.{◌≡◌, ◌≤◌, Ok, false};
ghost use Rattle.wl_expr.specs.Stamped.{plain};
ghost use Rattle.wl_state.specs.Endings.{EndsBy, quiet_end, unless_heard};
ghost use Rattle.wl_semantics.specs.MessageRows as rows;
ghost use Rattle.wl_state.specs.Parts.{sized_row};
ghost use Rattle.wl_state.specs.Played.{AllHonest, Honest, Played, Sound, found_tree, is_leaf, trees};
ghost use Rattle.wl_semantics.specs.State.{Aborted};
ghost use Rattle.wl_state.specs.Marks.{at_last_mark};

use crate::evaluation::{evaluate, turns};
use wl_expr::Expr;
use wl_ports::{Ledger, Work};
use wl_state::end_rows::passed_on;
use wl_state::ends::{End, Stop};
use wl_state::evaluation::is_leaf;
use wl_state::evaluator::Evaluator;
use wl_state::quiet_rows::unless_heard;

/// Evaluates inside a Quiet, and says how that ended. The level is opened before the Quiet, so that no more Quiets are open than
/// evaluations.
#[cycle(eval)]
fn evaluate_quietly<L: Ledger>(
    evaluator: &mut Evaluator,
    e: Expr,
    work: &mut Work<L>,
) -> Result<End, Stop>
    requires sound { Sound evaluator.old }
    requires honest { Honest evaluator.old e }
    ensures played { EndsBy (quiet_end (plain e)) evaluator.old result evaluator.new }
    ensures falls { evaluator.new.steps ≤ evaluator.old.steps }
    ensures ticks { at_last_mark work.new ≡ at_last_mark work.old }
{
    if is_leaf(&e) {
        return Ok(End::Value(e));
    }
    let depth = evaluator.depth;
    if depth >= evaluator.recursion {
        evaluator.too_deep_quietly(work)?;
        return Ok(End::Aborted);
    }
    evaluator.open();
    evaluator.desk.quiet();
    let end = turns(evaluator, e, work)?;
    evaluator.desk.unquiet();
    evaluator.depth = depth;
    Ok(end)
}

#[cycle(eval)]
pub(crate) fn quiet_row<L: Ledger>(
    evaluator: &mut Evaluator,
    args: &[Expr],
    work: &mut Work<L>,
) -> Result<Option<Expr>, Stop>
    requires sound { Sound evaluator.old }
    requires args { AllHonest evaluator.old args.now }
    ensures played { Played found_tree (sized_row (rows.quiet_row (trees args.now))) evaluator.old result evaluator.new }
    ensures falls { evaluator.new.steps ≤ evaluator.old.steps }
    ensures ticks { at_last_mark work.new ≡ at_last_mark work.old }
{
    let [e] = args else {
        return Ok(None);
    };
    let end = evaluate_quietly(evaluator, e.copy()?, work)?;
    passed_on(end)
}

#[cycle(eval)]
pub(crate) fn check_row<L: Ledger>(
    evaluator: &mut Evaluator,
    args: &[Expr],
    work: &mut Work<L>,
) -> Result<Option<Expr>, Stop>
    requires sound { Sound evaluator.old }
    requires args { AllHonest evaluator.old args.now }
    ensures played { Played found_tree (sized_row (rows.check_row (trees args.now))) evaluator.old result evaluator.new }
    ensures falls { evaluator.new.steps ≤ evaluator.old.steps }
    ensures ticks { at_last_mark work.new ≡ at_last_mark work.old }
{
    let [e, other] = args else {
        return Ok(None);
    };
    let before = evaluator.desk.heard();
    evaluator.desk.set_heard(false);
    let end = evaluate(evaluator, e.copy()?, work)?;
    let heard = evaluator.desk.heard();
    evaluator.desk.set_heard(before || heard);
    unless_heard(end, heard, other)
}
