//! The rows that define, and those that take a definition away.
ghost use Rattle.std.specs.Prelude.{◌≡◌, ◌≤◌, None, Ok, false};
ghost use Rattle.wl_expr.specs.Stamped.{plain};
ghost use Rattle.wl_semantics.specs.Definitions as definitions;
ghost use Rattle.wl_state.specs.Parts.{sized_row};
ghost use Rattle.wl_state.specs.Played.{AllHonest, Honest, Played, Sound, found_tree, itself, trees};
ghost use Rattle.wl_state.specs.Prepared.{message_text, same_shape, set_one};
ghost use Rattle.wl_state.specs.Marks.{at_last_mark};

use crate::left_sides::prepared;
use wl_expr::Expr;
use wl_ports::{Ledger, Work};
use wl_state::ends::Stop;
use wl_state::evaluator::Evaluator;
use wl_state::left_sides::moved;
use wl_state::operands::{list_elements, only, two};
use wl_state::set_rows::{message_text, refusal, same_shape};

/// Defines a left side, and answers whether that is refused.
#[cycle(eval)]
fn define<L: Ledger>(
    evaluator: &mut Evaluator,
    immediate: bool,
    left: &Expr,
    value: &Expr,
    work: &mut Work<L>,
) -> Result<bool, Stop>
    requires sound { Sound evaluator.old }
    requires left { Honest evaluator.old left.now }
    requires value { Honest evaluator.old value.now }
    ensures played { Played itself (definitions.define immediate (plain left.now) (plain value.now)) evaluator.old result evaluator.new }
    ensures falls { evaluator.new.steps ≤ evaluator.old.steps }
    ensures ticks { at_last_mark work.new ≡ at_last_mark work.old }
{
    let (body, condition) = moved(value);
    let sides = prepared(evaluator, left, condition, work)?;
    Ok(evaluator.define_target(immediate, &sides.left, &sides.core, body, value, work)?)
}

/// Sets a left side that is no list, or stores the text of a message.
#[cycle(eval)]
fn set_one<L: Ledger>(
    evaluator: &mut Evaluator,
    left: &Expr,
    value: &Expr,
    work: &mut Work<L>,
) -> Result<(), Stop>
    requires sound { Sound evaluator.old }
    requires left { Honest evaluator.old left.now }
    requires value { Honest evaluator.old value.now }
    ensures played { Played itself (set_one (plain left.now) (plain value.now)) evaluator.old result evaluator.new }
    ensures falls { evaluator.new.steps ≤ evaluator.old.steps }
    ensures ticks { at_last_mark work.new ≡ at_last_mark work.old }
{
    let Some((name, tag, text)) = message_text(left, value) else {
        let _refused = define(evaluator, true, left, value, work)?;
        return Ok(());
    };
    Ok(evaluator.set_message(name, tag, text, value, work)?)
}

/// Sets a left side, of a list each element.
#[cycle(eval)]
fn set<L: Ledger>(
    evaluator: &mut Evaluator,
    left: &Expr,
    value: &Expr,
    work: &mut Work<L>,
) -> Result<(), Stop>
    requires sound { Sound evaluator.old }
    requires left { Honest evaluator.old left.now }
    requires value { Honest evaluator.old value.now }
    ensures played { Played itself (definitions.set (plain left.now) (plain value.now)) evaluator.old result evaluator.new }
    ensures falls { evaluator.new.steps ≤ evaluator.old.steps }
    ensures ticks { at_last_mark work.new ≡ at_last_mark work.old }
{
    let Some(lefts) = list_elements(left) else {
        return set_one(evaluator, left, value, work);
    };
    let Some(values) = same_shape(lefts.len(), value) else {
        return Ok(evaluator.tell_shape(left, value, work)?);
    };
    for i in 0..lefts.len() {
        set(evaluator, &lefts[i], &values[i], work)?;
    }
    Ok(())
}

#[cycle(eval)]
pub(crate) fn set_row<L: Ledger>(
    evaluator: &mut Evaluator,
    args: &[Expr],
    work: &mut Work<L>,
) -> Result<Option<Expr>, Stop>
    requires sound { Sound evaluator.old }
    requires args { AllHonest evaluator.old args.now }
    ensures played { Played found_tree (sized_row (definitions.set_row (trees args.now))) evaluator.old result evaluator.new }
    ensures falls { evaluator.new.steps ≤ evaluator.old.steps }
    ensures ticks { at_last_mark work.new ≡ at_last_mark work.old }
{
    let Some((left, value)) = two(args) else {
        return Ok(None);
    };
    // That they are within the limits are clauses of `depth` and `weight`.
    let _depth = left.depth();
    let _weight = value.weight();
    set(evaluator, left, value, work)?;
    Ok(Some(value.copy()?))
}

#[cycle(eval)]
pub(crate) fn set_delayed_row<L: Ledger>(
    evaluator: &mut Evaluator,
    args: &[Expr],
    work: &mut Work<L>,
) -> Result<Option<Expr>, Stop>
    requires sound { Sound evaluator.old }
    requires args { AllHonest evaluator.old args.now }
    ensures played { Played found_tree (sized_row (definitions.set_delayed_row (trees args.now))) evaluator.old result evaluator.new }
    ensures falls { evaluator.new.steps ≤ evaluator.old.steps }
    ensures ticks { at_last_mark work.new ≡ at_last_mark work.old }
{
    let Some((left, value)) = two(args) else {
        return Ok(None);
    };
    let is_refused = define(evaluator, false, left, value, work)?;
    Ok(Some(refusal(evaluator.alloc, is_refused)?))
}

#[cycle(eval)]
pub(crate) fn unset_row<L: Ledger>(
    evaluator: &mut Evaluator,
    args: &[Expr],
    work: &mut Work<L>,
) -> Result<Option<Expr>, Stop>
    requires sound { Sound evaluator.old }
    requires args { AllHonest evaluator.old args.now }
    ensures played { Played found_tree (sized_row (definitions.unset_row (trees args.now))) evaluator.old result evaluator.new }
    ensures falls { evaluator.new.steps ≤ evaluator.old.steps }
    ensures ticks { at_last_mark work.new ≡ at_last_mark work.old }
{
    let Some(left) = only(args) else {
        return Ok(None);
    };
    let sides = prepared(evaluator, left, None, work)?;
    let is_taken = evaluator.unset_target(&sides.left, &sides.core, work)?;
    Ok(Some(refusal(evaluator.alloc, !is_taken)?))
}
