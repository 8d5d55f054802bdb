//! Evaluations, and their turns one after the other.
ghost use Rattle.std.specs.Prelude.{◌≡◌, ◌≤◌, ◌<◌, IfOk};
ghost use Rattle.wl_expr.specs.Stamped.{plain};
ghost use Rattle.wl_expr.specs.Tree.{Tree};
ghost use Rattle.wl_state.specs.Played.{Ended, Honest, Makes, Played, Sound, TurnsEnd, is_leaf, sealed, tree, turned, whole_turn};
ghost use Rattle.wl_semantics.specs.Prog as prog;
ghost use Rattle.wl_state.specs.Marks.{at_last_mark};

use crate::turn::turn;
use wl_expr::{Expr, ExprFault};
use wl_ports::{Ledger, Work};
use wl_state::ends::{End, Stop, Turned, ended, valued};
use wl_state::evaluation::is_leaf;
use wl_state::evaluator::Evaluator;

/// Evaluates, and says how that ended.
#[cycle(eval)]
pub(crate) fn evaluate<L: Ledger>(
    evaluator: &mut Evaluator,
    e: Expr,
    work: &mut Work<L>,
) -> Result<End, Stop>
    requires sound { Sound evaluator.old }
    requires honest { Honest evaluator.old e }
    ensures played { Ended (plain e) evaluator.old result evaluator.new }
    ensures falls { evaluator.new.steps ≤ evaluator.old.steps }
    ensures ticks { at_last_mark work.new ≡ at_last_mark work.old }
{
    if is_leaf(&e) {
        return Ok(End::Value(e));
    }
    let depth = evaluator.depth;
    if depth >= evaluator.recursion {
        evaluator.too_deep(work)?;
        return Ok(End::Aborted);
    }
    evaluator.open();
    let end = turns(evaluator, e, work)?;
    evaluator.depth = depth;
    Ok(end)
}

/// The turns of an evaluation, from the first one on.
#[cycle(eval)]
pub(crate) fn turns<L: Ledger>(
    evaluator: &mut Evaluator,
    first: Expr,
    work: &mut Work<L>,
) -> Result<End, Stop>
    requires sound { Sound evaluator.old }
    requires honest { Honest evaluator.old first }
    ensures played { TurnsEnd 1 (plain first) evaluator.old result evaluator.new }
    ensures falls { evaluator.new.steps ≤ evaluator.old.steps }
    ensures ticks { at_last_mark work.new ≡ at_last_mark work.old }
{
    let mut subject = first;
    let mut count: u32 = 1;
    loop {
        if count > evaluator.iteration {
            evaluator.too_many_turns(work)?;
            return Ok(End::Aborted);
        }
        evaluator.note_turn(count);
        match stepped_turn(evaluator, &subject, work) {
            Err(stop) => return ended(stop),
            Ok(Turned::Final(v, _settled)) => return Ok(End::Value(v)),
            Ok(Turned::Next(next)) => {
                if is_leaf(&next) {
                    return Ok(End::Value(next));
                }
                subject = next;
                count += 1;
            }
        }
    }
}

/// A turn with its step. Here stamps will be made.
#[cycle(eval)]
fn stepped_turn<L: Ledger>(
    evaluator: &mut Evaluator,
    e: &Expr,
    work: &mut Work<L>,
) -> Result<Turned, Stop>
    requires sound { Sound evaluator.old }
    requires honest { Honest evaluator.old e.now }
    ensures played { Played sealed (whole_turn (plain e.now)) evaluator.old result evaluator.new }
    ensures falls { evaluator.new.steps ≤ evaluator.old.steps }
    ensures less { IfOk result (λ _. evaluator.new.steps < evaluator.old.steps) }
    ensures ticks { at_last_mark work.new ≡ at_last_mark work.old }
{
    bare_turn(evaluator, e, work)
}

/// A turn, with its step.
#[cycle(eval)]
fn bare_turn<L: Ledger>(
    evaluator: &mut Evaluator,
    e: &Expr,
    work: &mut Work<L>,
) -> Result<Turned, Stop>
    requires sound { Sound evaluator.old }
    requires honest { Honest evaluator.old e.now }
    ensures played { Played turned (whole_turn (plain e.now)) evaluator.old result evaluator.new }
    ensures falls { evaluator.new.steps ≤ evaluator.old.steps }
    ensures less { IfOk result (λ _. evaluator.new.steps < evaluator.old.steps) }
    ensures ticks { at_last_mark work.new ≡ at_last_mark work.old }
{
    evaluator.take_step()?;
    turn(evaluator, e, work)
}

/// The value of an expression.
#[cycle(eval)]
pub(crate) fn value_of<L: Ledger>(
    evaluator: &mut Evaluator,
    e: &Expr,
    work: &mut Work<L>,
) -> Result<Expr, Stop>
    requires sound { Sound evaluator.old }
    requires honest { Honest evaluator.old e.now }
    ensures played { Played tree (prog.value_of (plain e.now)) evaluator.old result evaluator.new }
    ensures falls { evaluator.new.steps ≤ evaluator.old.steps }
    ensures ticks { at_last_mark work.new ≡ at_last_mark work.old }
{
    let end = evaluate(evaluator, e.copy()?, work)?;
    valued(end)
}

/// The value of an expression that was built for it, once its size is tested.
#[cycle(eval)]
pub(crate) fn value_of_built<L: Ledger>(
    evaluator: &mut Evaluator,
    made: Result<Expr, ExprFault>,
    work: &mut Work<L>,
) -> Result<Expr, Stop>
    requires sound { Sound evaluator.old }
    requires honest { IfOk made (Honest evaluator.old) }
    ensures played { (t : Tree) → Makes t made → Played tree (prog.value_of_built t) evaluator.old result evaluator.new }
    ensures falls { evaluator.new.steps ≤ evaluator.old.steps }
    ensures ticks { at_last_mark work.new ≡ at_last_mark work.old }
{
    let e = evaluator.fitted(made, work)?;
    let end = evaluate(evaluator, e, work)?;
    valued(end)
}
