//! The elements of a node, evaluated.
ghost use Rattle.std.specs.Prelude.{◌≡◌, ◌≤◌};
ghost use Rattle.wl_semantics.specs.Elements.{evaluated, stays_held};
ghost use Rattle.wl_state.specs.Played.{AllHonest, Played, Sound, trees, values};
ghost use Rattle.wl_state.specs.Marks.{at_last_mark};

use crate::evaluation::value_of;
use wl_expr::{Expr, copy_all};
use wl_ports::{Ledger, Work};
use wl_rules::{Attribute, Attributes};
use wl_state::elements::stays_held;
use wl_state::ends::Stop;
use wl_state::evaluator::Evaluator;

/// The elements, each evaluated unless it is held.
#[cycle(eval)]
pub(crate) fn elements<L: Ledger>(
    evaluator: &mut Evaluator,
    attributes: Attributes,
    args: &[Expr],
    work: &mut Work<L>,
) -> Result<Vec<Expr>, Stop>
    requires sound { Sound evaluator.old }
    requires args { AllHonest evaluator.old args.now }
    ensures played { Played (values attributes) (evaluated attributes (trees args.now)) evaluator.old result evaluator.new }
    ensures falls { evaluator.new.steps ≤ evaluator.old.steps }
    ensures ticks { at_last_mark work.new ≡ at_last_mark work.old }
{
    if attributes.has(Attribute::HoldAllComplete) {
        return Ok(copy_all(evaluator.alloc, args)?);
    }
    let mut values = Vec::with_capacity(evaluator.alloc, args.len())?;
    for i in 0..args.len() {
        let arg = &args[i];
        if stays_held(attributes, i, arg) {
            values.push(arg.copy()?)?;
            continue;
        }
        let value = value_of(evaluator, arg, work)?;
        values.push(value)?;
    }
    Ok(values)
}
