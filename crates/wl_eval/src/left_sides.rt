//! Left sides of definitions: their cores are evaluated and put back.
ghost use Rattle.std.specs.Prelude.{◌≡◌, ◌≤◌, ◌<◌, IfOk, IfSome, Ok, option_map};
ghost use Rattle.wl_expr.specs.Stamped.{plain};
ghost use Rattle.wl_semantics.specs.Definitions as definitions;
ghost use Rattle.wl_semantics.specs.LeftSides.{with_core};
ghost use Rattle.wl_state.specs.Played.{Honest, Played, Sound};
ghost use Rattle.wl_state.specs.Prepared.{MadeBy, prepared_side, under};
ghost use Rattle.wl_state.specs.Marks.{at_last_mark};

use crate::elements::elements;
use wl_assign::core;
use wl_expr::{Expr, Look};
use wl_ports::{Ledger, Work};
use wl_state::ends::Stop;
use wl_state::evaluator::Evaluator;
use wl_state::left_sides::{Prepared, core_made, put_back, with_core};

/// The core with its elements evaluated, but not itself; a head that is a node first, and alike.
#[cycle(eval)]
fn evaluated_core<L: Ledger>(
    evaluator: &mut Evaluator,
    core: &Expr,
    work: &mut Work<L>,
) -> Result<Option<Expr>, Stop>
    requires sound { Sound evaluator.old }
    requires honest { Honest evaluator.old core.now }
    ensures played { MadeBy (definitions.evaluated_core (plain core.now)) evaluator.old result evaluator.new }
    ensures falls { evaluator.new.steps ≤ evaluator.old.steps }
    ensures ticks { at_last_mark work.new ≡ at_last_mark work.old }
{
    let _depth = core.depth();
    let Look::Node(head, args) = core.view() else {
        return Ok(Some(core.copy()?));
    };
    let made = evaluated_core(evaluator, head, work)?;
    let attributes = evaluator.attributes_of_made(&made, work)?;
    let values = elements(evaluator, attributes, args, work)?;
    Ok(core_made(evaluator.alloc, made, values.as_slice(), attributes)?)
}

/// The core of a left side as its rule keeps it.
#[cycle(eval)]
fn core_of<L: Ledger>(
    evaluator: &mut Evaluator,
    left: &Expr,
    work: &mut Work<L>,
) -> Result<Option<Expr>, Stop>
    requires sound { Sound evaluator.old }
    requires honest { Honest evaluator.old left.now }
    ensures played { MadeBy (definitions.core_of (plain left.now)) evaluator.old result evaluator.new }
    ensures falls { evaluator.new.steps ≤ evaluator.old.steps }
    ensures ticks { at_last_mark work.new ≡ at_last_mark work.old }
{
    let found = core(left);
    if found.held {
        return Ok(Some(found.core.copy()?));
    }
    let _depth = found.core.depth();
    evaluated_core(evaluator, found.core, work)
}

/// The left side as its rule keeps it, within this condition.
#[cycle(eval)]
pub(crate) fn prepared<L: Ledger>(
    evaluator: &mut Evaluator,
    left: &Expr,
    condition: Option<&Expr>,
    work: &mut Work<L>,
) -> Result<Prepared, Stop>
    requires sound { Sound evaluator.old }
    requires honest { Honest evaluator.old left.now }
    requires condition { IfSome condition (λ e. Honest evaluator.old e.now) }
    ensures played { Played prepared_side (definitions.prepared (under (option_map (λ e. plain e.now) condition.entry) (plain left.now)))
        evaluator.old result evaluator.new }
    ensures left { IfOk result (λ p. plain p.left
        ≡ with_core (under (option_map (λ e. plain e.now) condition.entry) (plain left.now)) (plain p.core)) }
    ensures falls { evaluator.new.steps ≤ evaluator.old.steps }
    ensures ticks { at_last_mark work.new ≡ at_last_mark work.old }
{
    let core = core_of(evaluator, left, work)?;
    let made = put_back(evaluator.alloc, left, condition, &core);
    let left = evaluator.fitted(made, work)?;
    let Some(core) = core else { unreachable!() };
    Ok(Prepared { left, core })
}
