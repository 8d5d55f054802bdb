//! The rows that end an evaluation other than by a value, and those that catch such ends.
ghost use Rattle.std.specs.Prelude.{◌≡◌, ◌≤◌, Some};
ghost use Rattle.wl_expr.specs.Stamped.{plain};
ghost use Rattle.wl_semantics.specs.EndRows as rows;
ghost use Rattle.wl_state.specs.Parts.{sized_row};
ghost use Rattle.wl_state.specs.Played.{AllHonest, Honest, HonestEnd, Played, Sound, end_of, found_tree, trees};
ghost use Rattle.wl_semantics.specs.State.{Thrown};
ghost use Rattle.wl_state.specs.Marks.{at_last_mark};

use crate::evaluation::evaluate;
use crate::matching::matches;
use wl_expr::Expr;
use wl_ports::{Ledger, Work};
use wl_state::end_rows::{after_abort, caught, passed_on};
use wl_state::ends::{End, Stop};
use wl_state::evaluator::Evaluator;

#[cycle(eval)]
pub(crate) fn catch_row<L: Ledger>(
    evaluator: &mut Evaluator,
    args: &[Expr],
    work: &mut Work<L>,
) -> Result<Option<Expr>, Stop>
    requires sound { Sound evaluator.old }
    requires args { AllHonest evaluator.old args.now }
    ensures played { Played found_tree (sized_row (rows.catch_row (trees args.now))) evaluator.old result evaluator.new }
    ensures falls { evaluator.new.steps ≤ evaluator.old.steps }
    ensures ticks { at_last_mark work.new ≡ at_last_mark work.old }
{
    if args.len() == 1 {
        let end = evaluate(evaluator, args[0].copy()?, work)?;
        return caught(end);
    }
    if args.len() == 2 {
        let end = evaluate(evaluator, args[0].copy()?, work)?;
        return catch_tagged(evaluator, &args[1], end, work);
    }
    Ok(None)
}

/// What a Catch with a tag's pattern gives of an end.
#[cycle(eval)]
fn catch_tagged<L: Ledger>(
    evaluator: &mut Evaluator,
    pattern: &Expr,
    end: End,
    work: &mut Work<L>,
) -> Result<Option<Expr>, Stop>
    requires sound { Sound evaluator.old }
    requires pattern { Honest evaluator.old pattern.now }
    requires honest { HonestEnd evaluator.old end }
    ensures played { Played found_tree (sized_row (rows.catch_tagged (plain pattern.now) (end_of end))) evaluator.old result evaluator.new }
    ensures falls { evaluator.new.steps ≤ evaluator.old.steps }
    ensures ticks { at_last_mark work.new ≡ at_last_mark work.old }
{
    match end {
        End::Thrown(v, tag) => match tag {
            None => Err(Stop::Thrown(v, None)),
            Some(tag) => catch_thrown(evaluator, pattern, v, tag, work),
        },
        _ => passed_on(end),
    }
}

/// What it gives of what was thrown with a tag.
#[cycle(eval)]
fn catch_thrown<L: Ledger>(
    evaluator: &mut Evaluator,
    pattern: &Expr,
    v: Expr,
    tag: Expr,
    work: &mut Work<L>,
) -> Result<Option<Expr>, Stop>
    requires sound { Sound evaluator.old }
    requires pattern { Honest evaluator.old pattern.now }
    requires value { Honest evaluator.old v }
    requires tag { Honest evaluator.old tag }
    ensures played { Played found_tree (sized_row (rows.catch_tagged (plain pattern.now) (Thrown (plain v) (Some (plain tag)))))
        evaluator.old result evaluator.new }
    ensures falls { evaluator.new.steps ≤ evaluator.old.steps }
    ensures ticks { at_last_mark work.new ≡ at_last_mark work.old }
{
    // The steps that are left are a number of 64 bits.
    let _steps = evaluator.steps;
    let found = matches(evaluator, pattern, &tag, work)?;
    if found {
        let _weight = v.weight();
        return Ok(Some(v));
    }
    Err(Stop::Thrown(v, Some(tag)))
}

#[cycle(eval)]
pub(crate) fn check_abort_row<L: Ledger>(
    evaluator: &mut Evaluator,
    args: &[Expr],
    work: &mut Work<L>,
) -> Result<Option<Expr>, Stop>
    requires sound { Sound evaluator.old }
    requires args { AllHonest evaluator.old args.now }
    ensures played { Played found_tree (sized_row (rows.check_abort_row (trees args.now))) evaluator.old result evaluator.new }
    ensures falls { evaluator.new.steps ≤ evaluator.old.steps }
    ensures ticks { at_last_mark work.new ≡ at_last_mark work.old }
{
    let [e, other] = args else {
        return Ok(None);
    };
    let end = evaluate(evaluator, e.copy()?, work)?;
    after_abort(end, other)
}
