//! A turn of a symbol and of a node.
ghost use Rattle.std.specs.Prelude.{◌≡◌, ◌≤◌, ◌<◌};
ghost use Rattle.wl_expr.specs.Stamped.{plain};
ghost use Rattle.wl_expr.specs.Tree.{symbol};
ghost use Rattle.wl_expr.specs.Words.{applied};
ghost use Rattle.wl_shape.specs.Shape.{shape};
ghost use Rattle.wl_semantics.specs.Elements.{bared, is_bared};
ghost use Rattle.wl_state.specs.Played.{AllHonest, Honest, Played, Sound, trees, turned};
ghost use Rattle.wl_semantics.specs.Turn as turn;
ghost use Rattle.wl_state.specs.Marks.{at_last_mark};

use crate::applying::{applied_rule, tried};
use crate::elements::elements;
use crate::evaluation::value_of;
use std::slice;
use wl_expr::{Expr, Look};
use wl_ports::{Ledger, Work};
use wl_rules::{Attributes, RuleKind};
use wl_shape::Shaped;
use wl_state::ends::{Stop, Turned};
use wl_state::evaluator::Evaluator;
use wl_state::shaping::{is_bared, shaped, stays};
use wl_state::turn::{final_form, turned};

#[cycle(eval)]
pub(crate) fn turn<L: Ledger>(
    evaluator: &mut Evaluator,
    e: &Expr,
    work: &mut Work<L>,
) -> Result<Turned, Stop>
    requires sound { Sound evaluator.old }
    requires honest { Honest evaluator.old e.now }
    ensures played { Played turned (turn.turn (plain e.now)) evaluator.old result evaluator.new }
    ensures falls { evaluator.new.steps ≤ evaluator.old.steps }
    ensures ticks { at_last_mark work.new ≡ at_last_mark work.old }
{
    match e.view() {
        Look::Num(_) => Ok(Turned::Final(e.copy()?, true)),
        Look::Text(_) => Ok(Turned::Final(e.copy()?, true)),
        Look::Symbol(name) => symbol_turn(evaluator, e, name, work),
        Look::Node(head, args) => node_turn(evaluator, head, args, work),
    }
}

/// The turn of the symbol of this name.
#[cycle(eval)]
fn symbol_turn<L: Ledger>(
    evaluator: &mut Evaluator,
    e: &Expr,
    name: &str,
    work: &mut Work<L>,
) -> Result<Turned, Stop>
    requires sound { Sound evaluator.old }
    requires honest { Honest evaluator.old e.now }
    requires named { plain e.now ≡ symbol name.now }
    ensures played { Played turned (turn.symbol_turn name.now) evaluator.old result evaluator.new }
    ensures falls { evaluator.new.steps ≤ evaluator.old.steps }
    ensures ticks { at_last_mark work.new ≡ at_last_mark work.old }
{
    let found = tried(evaluator, RuleKind::Own, name, e, work)?;
    Ok(turned(found, e, e, true)?)
}

#[cycle(eval)]
fn node_turn<L: Ledger>(
    evaluator: &mut Evaluator,
    head: &Expr,
    args: &[Expr],
    work: &mut Work<L>,
) -> Result<Turned, Stop>
    requires sound { Sound evaluator.old }
    requires honest { Honest evaluator.old head.now }
    requires args { AllHonest evaluator.old args.now }
    ensures played { Played turned (turn.node_turn (plain head.now) (trees args.now)) evaluator.old result evaluator.new }
    ensures falls { evaluator.new.steps ≤ evaluator.old.steps }
    ensures ticks { at_last_mark work.new ≡ at_last_mark work.old }
{
    let head = value_of(evaluator, head, work)?;
    let attributes = evaluator.attributes_of_head(&head, work)?;
    let values = elements(evaluator, attributes, args, work)?;
    let first = Expr::node(evaluator.alloc, &head, values.as_slice());
    let first = evaluator.fitted(first, work)?;
    shaped_turn(
        evaluator,
        attributes,
        &first,
        &head,
        values.as_slice(),
        work,
    )
}

/// The turn of a node, once its head and its elements stand.
#[cycle(eval)]
fn shaped_turn<L: Ledger>(
    evaluator: &mut Evaluator,
    attributes: Attributes,
    first: &Expr,
    head: &Expr,
    values: &[Expr],
    work: &mut Work<L>,
) -> Result<Turned, Stop>
    requires sound { Sound evaluator.old }
    requires first { plain first.now ≡ applied (plain head.now) (trees values.now) }
    requires honest { Honest evaluator.old first.now }
    requires head { Honest evaluator.old head.now }
    requires values { AllHonest evaluator.old values.now }
    ensures played { Played turned (turn.shaped_turn attributes (plain first.now) (is_bared attributes (trees values.now))
        (shape attributes (plain head.now) (bared attributes (trees values.now)))) evaluator.old result evaluator.new }
    ensures falls { evaluator.new.steps ≤ evaluator.old.steps }
    ensures ticks { at_last_mark work.new ≡ at_last_mark work.old }
{
    // That the first form is within the limits is a clause of `weight`; so then is a rebuilt form.
    let _weight = first.weight();
    let changed = is_bared(attributes, values);
    if !changed && stays(attributes, values) {
        return rules_turn(evaluator, attributes, first, changed, first, work);
    }
    match shaped(evaluator.alloc, changed, head, values, attributes) {
        Err(fault) => Err(evaluator.fault(fault, work)),
        Ok(Shaped::Node(form)) => rules_turn(evaluator, attributes, first, changed, &form, work),
        Ok(Shaped::Threaded(list)) => Ok(Turned::Next(list)),
        Ok(Shaped::Uneven(form)) => {
            evaluator.issue("Thread", "tdlen", slice::from_ref(&form), work)?;
            rules_turn(evaluator, attributes, first, changed, &form, work)
        }
    }
}

/// The turn of a node, once it is shaped.
#[cycle(eval)]
fn rules_turn<L: Ledger>(
    evaluator: &mut Evaluator,
    attributes: Attributes,
    first: &Expr,
    changed: bool,
    form: &Expr,
    work: &mut Work<L>,
) -> Result<Turned, Stop>
    requires sound { Sound evaluator.old }
    requires honest { Honest evaluator.old first.now }
    requires form { Honest evaluator.old form.now }
    ensures played { Played turned (turn.rules_turn attributes (plain first.now) changed (plain form.now)) evaluator.old result evaluator.new }
    ensures falls { evaluator.new.steps ≤ evaluator.old.steps }
    ensures ticks { at_last_mark work.new ≡ at_last_mark work.old }
{
    let found = applied_rule(evaluator, attributes, form, work)?;
    let last = final_form(changed, first, form);
    // Whether head and elements came back settled is asked once stamps are made.
    Ok(turned(found, form, last, false)?)
}
