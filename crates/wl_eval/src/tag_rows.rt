//! The rows that define by tags, and the one that takes such a definition away.
ghost use Rattle.std.specs.Prelude.{◌≡◌, ◌≤◌};
ghost use Rattle.wl_expr.specs.Stamped.{plain};
ghost use Rattle.wl_ports.specs.Name.{IsName};
ghost use Rattle.wl_semantics.specs.Definitions as definitions;
ghost use Rattle.wl_state.specs.Parts.{sized_row};
ghost use Rattle.wl_state.specs.Played.{AllHonest, Honest, Played, Sound, found_tree, itself, trees};
ghost use Rattle.wl_state.specs.Marks.{at_last_mark};

use crate::evaluation::value_of;
use crate::left_sides::prepared;
use wl_expr::Expr;
use wl_ports::{Ledger, Work};
use wl_state::ends::Stop;
use wl_state::evaluator::Evaluator;
use wl_state::left_sides::moved;
use wl_state::operands::{name_and_one, name_and_two, two};
use wl_state::set_rows::refusal;

/// Gives each tag of a left side an up rule, and answers whether one is refused.
#[cycle(eval)]
fn define_up<L: Ledger>(
    evaluator: &mut Evaluator,
    left: &Expr,
    value: &Expr,
    work: &mut Work<L>,
) -> Result<bool, Stop>
    requires sound { Sound evaluator.old }
    requires left { Honest evaluator.old left.now }
    requires value { Honest evaluator.old value.now }
    ensures played { Played itself (definitions.define_up (plain left.now) (plain value.now)) evaluator.old result evaluator.new }
    ensures falls { evaluator.new.steps ≤ evaluator.old.steps }
    ensures ticks { at_last_mark work.new ≡ at_last_mark work.old }
{
    let (body, condition) = moved(value);
    let sides = prepared(evaluator, left, condition, work)?;
    Ok(evaluator.define_up_target(&sides.left, &sides.core, body, value, work)?)
}

/// Gives a name the rule of a left side, and answers whether that is refused.
#[cycle(eval)]
fn define_tagged<L: Ledger>(
    evaluator: &mut Evaluator,
    name: &str,
    left: &Expr,
    value: &Expr,
    work: &mut Work<L>,
) -> Result<bool, Stop>
    requires sound { Sound evaluator.old }
    requires name { IsName name.now }
    requires left { Honest evaluator.old left.now }
    requires value { Honest evaluator.old value.now }
    ensures played { Played itself (definitions.define_tagged name.now (plain left.now) (plain value.now)) evaluator.old result evaluator.new }
    ensures falls { evaluator.new.steps ≤ evaluator.old.steps }
    ensures ticks { at_last_mark work.new ≡ at_last_mark work.old }
{
    let (body, condition) = moved(value);
    let sides = prepared(evaluator, left, condition, work)?;
    Ok(evaluator.define_tagged_by(name, &sides.left, &sides.core, body, value, work)?)
}

#[cycle(eval)]
pub(crate) fn up_set_row<L: Ledger>(
    evaluator: &mut Evaluator,
    args: &[Expr],
    work: &mut Work<L>,
) -> Result<Option<Expr>, Stop>
    requires sound { Sound evaluator.old }
    requires args { AllHonest evaluator.old args.now }
    ensures played { Played found_tree (sized_row (definitions.up_set_row (trees args.now))) evaluator.old result evaluator.new }
    ensures falls { evaluator.new.steps ≤ evaluator.old.steps }
    ensures ticks { at_last_mark work.new ≡ at_last_mark work.old }
{
    let Some((left, value)) = two(args) else {
        return Ok(None);
    };
    // That it is within the limits is a clause of `weight`.
    let _weight = value.weight();
    let _refused = define_up(evaluator, left, value, work)?;
    Ok(Some(value.copy()?))
}

#[cycle(eval)]
pub(crate) fn up_set_delayed_row<L: Ledger>(
    evaluator: &mut Evaluator,
    args: &[Expr],
    work: &mut Work<L>,
) -> Result<Option<Expr>, Stop>
    requires sound { Sound evaluator.old }
    requires args { AllHonest evaluator.old args.now }
    ensures played { Played found_tree (sized_row (definitions.up_set_delayed_row (trees args.now))) evaluator.old result evaluator.new }
    ensures falls { evaluator.new.steps ≤ evaluator.old.steps }
    ensures ticks { at_last_mark work.new ≡ at_last_mark work.old }
{
    let Some((left, value)) = two(args) else {
        return Ok(None);
    };
    let is_refused = define_up(evaluator, left, value, work)?;
    Ok(Some(refusal(evaluator.alloc, is_refused)?))
}

#[cycle(eval)]
pub(crate) fn tag_set_row<L: Ledger>(
    evaluator: &mut Evaluator,
    args: &[Expr],
    work: &mut Work<L>,
) -> Result<Option<Expr>, Stop>
    requires sound { Sound evaluator.old }
    requires args { AllHonest evaluator.old args.now }
    ensures played { Played found_tree (sized_row (definitions.tag_set_row (trees args.now))) evaluator.old result evaluator.new }
    ensures falls { evaluator.new.steps ≤ evaluator.old.steps }
    ensures ticks { at_last_mark work.new ≡ at_last_mark work.old }
{
    let Some((name, left, value)) = name_and_two(args) else {
        return Ok(None);
    };
    let value = value_of(evaluator, value, work)?;
    // That it is within the limits is a clause of `weight`.
    let _weight = value.weight();
    let _refused = define_tagged(evaluator, name, left, &value, work)?;
    Ok(Some(value))
}

#[cycle(eval)]
pub(crate) fn tag_set_delayed_row<L: Ledger>(
    evaluator: &mut Evaluator,
    args: &[Expr],
    work: &mut Work<L>,
) -> Result<Option<Expr>, Stop>
    requires sound { Sound evaluator.old }
    requires args { AllHonest evaluator.old args.now }
    ensures played { Played found_tree (sized_row (definitions.tag_set_delayed_row (trees args.now))) evaluator.old result evaluator.new }
    ensures falls { evaluator.new.steps ≤ evaluator.old.steps }
    ensures ticks { at_last_mark work.new ≡ at_last_mark work.old }
{
    let Some((name, left, value)) = name_and_two(args) else {
        return Ok(None);
    };
    let is_refused = define_tagged(evaluator, name, left, value, work)?;
    Ok(Some(refusal(evaluator.alloc, is_refused)?))
}

#[cycle(eval)]
pub(crate) fn tag_unset_row<L: Ledger>(
    evaluator: &mut Evaluator,
    args: &[Expr],
    work: &mut Work<L>,
) -> Result<Option<Expr>, Stop>
    requires sound { Sound evaluator.old }
    requires args { AllHonest evaluator.old args.now }
    ensures played { Played found_tree (sized_row (definitions.tag_unset_row (trees args.now))) evaluator.old result evaluator.new }
    ensures falls { evaluator.new.steps ≤ evaluator.old.steps }
    ensures ticks { at_last_mark work.new ≡ at_last_mark work.old }
{
    let Some((name, left)) = name_and_one(args) else {
        return Ok(None);
    };
    let sides = prepared(evaluator, left, None, work)?;
    let is_taken = evaluator.unset_tagged(name, &sides.left, &sides.core, work)?;
    Ok(Some(refusal(evaluator.alloc, !is_taken)?))
}
