//! The rows that end an evaluation other than by a value, and those that catch such ends.
ghost use Rattle.std.specs.Prelude.{Some};
ghost use Rattle.wl_expr.specs.Stamped.{plain};
ghost use Rattle.wl_semantics.specs.EndRows as rows;
ghost use Rattle.wl_state.specs.Parts.{sized_row};
ghost use Rattle.wl_state.specs.Played.{AllHonest, Honest, HonestEnd, Played, end_of, found_tree, trees};
ghost use Rattle.wl_semantics.specs.State.{Thrown};
ghost use Rattle.wl_state.specs.declared.evaluator.Evaluator.{Evaluator as Kernel};

use crate::ends::{End, Stop, valued};
use wl_expr::Expr;

/// The value of an end that no row has caught.
pub fn passed_on(end: End) -> Result<Option<Expr>, Stop>
    ensures { (k : Kernel) → HonestEnd k end → Played found_tree (sized_row (rows.passed_on (end_of end))) k result k }
{
    let v = valued(end)?;
    // That an expression is within the limits is a clause of `weight`.
    let _weight = v.weight();
    Ok(Some(v))
}

/// What a Catch without a tag's pattern gives of an end.
pub fn caught(end: End) -> Result<Option<Expr>, Stop>
    ensures { (k : Kernel) → HonestEnd k end → Played found_tree (sized_row (rows.catch_plain (end_of end))) k result k }
{
    match end {
        End::Thrown(v, tag) => match tag {
            None => {
                let _weight = v.weight();
                Ok(Some(v))
            }
            Some(tag) => Err(Stop::Thrown(v, Some(tag))),
        },
        _ => passed_on(end),
    }
}

/// What CheckAbort gives of an end.
pub fn after_abort(end: End, other: &Expr) -> Result<Option<Expr>, Stop>
    ensures { (k : Kernel) → HonestEnd k end → Honest k other.now
        → Played found_tree (sized_row (rows.after_abort (plain other.now) (end_of end))) k result k }
{
    match end {
        End::Aborted => {
            let _weight = other.weight();
            Ok(Some(other.copy()?))
        }
        _ => passed_on(end),
    }
}

/// Ends with what is thrown, and its tag where there is one.
pub fn throw_row(args: &[Expr]) -> Result<Option<Expr>, Stop>
    ensures { (k : Kernel) → AllHonest k args.now → Played found_tree (sized_row (rows.throw_row (trees args.now))) k result k }
{
    if args.len() == 1 {
        let v = args[0].copy()?;
        return Err(Stop::Thrown(v, None));
    }
    if args.len() == 2 {
        let v = args[0].copy()?;
        let tag = args[1].copy()?;
        return Err(Stop::Thrown(v, Some(tag)));
    }
    Ok(None)
}

/// Ends with an abort.
pub fn abort_row(args: &[Expr]) -> Result<Option<Expr>, Stop>
    ensures { (k : Kernel) → Played found_tree (sized_row (rows.abort_row (trees args.now))) k result k }
{
    if args.len() != 0 {
        return Ok(None);
    }
    Err(Stop::Aborted)
}

/// Ends with the Break of a loop.
pub fn break_row(args: &[Expr]) -> Result<Option<Expr>, Stop>
    ensures { (k : Kernel) → Played found_tree (sized_row (rows.break_row (trees args.now))) k result k }
{
    if args.len() != 0 {
        return Ok(None);
    }
    Err(Stop::Broke)
}

/// Ends with the Continue of a loop.
pub fn continue_row(args: &[Expr]) -> Result<Option<Expr>, Stop>
    ensures { (k : Kernel) → Played found_tree (sized_row (rows.continue_row (trees args.now))) k result k }
{
    if args.len() != 0 {
        return Ok(None);
    }
    Err(Stop::Continued)
}
