//! Guarded bodies: Module, With and Block whose body is a condition.
ghost use Rattle.std.specs.Prelude.{◌≡◌, ◌≤◌, ◌<◌, ◌+◌, ◌*◌, ℕ};
ghost use Rattle.wl_expr.specs.Stamped.{plain};
ghost use Rattle.wl_expr.specs.Tree.{depth};
ghost use Rattle.wl_expr.specs.Words.{elements};
ghost use Rattle.wl_shape.specs.Scopes.{locals, names, values};
ghost use Rattle.wl_state.specs.Guards as guards;
ghost use Rattle.wl_state.specs.LocalNames.{scope_parts};
ghost use Rattle.wl_semantics.specs.Match as matching;
ghost use Rattle.wl_state.specs.Played.{AllHonest, Honest, Played, Sound, found_tree, trees};
ghost use Rattle.wl_state.specs.Marks.{at_last_mark};

use crate::evaluation::value_of;
use crate::scope_rows::initials;
use wl_expr::Expr;
use wl_ports::{Ledger, Work};
use wl_state::elements::{is_form, is_symbol};
use wl_state::ends::Stop;
use wl_state::evaluator::Evaluator;
use wl_state::guard::{elements, is_condition, is_guarded};
use wl_state::locals::{renamed, replaced};
use wl_state::operands::two;
use wl_state::replies::stops_by_memory;
use wl_state::scope_rows::scope_parts;

/// What a guarded body gives, if anything.
#[cycle(eval)]
pub(crate) fn guard<L: Ledger>(
    evaluator: &mut Evaluator,
    e: &Expr,
    work: &mut Work<L>,
) -> Result<Option<Expr>, Stop>
    requires sound { Sound evaluator.old }
    requires honest { Honest evaluator.old e.now }
    ensures played { (n : ℕ) → 1001 * evaluator.old.steps + depth (plain e.now) < n
        → Played found_tree (matching.guard_within n (plain e.now)) evaluator.old result evaluator.new }
    ensures falls { evaluator.new.steps ≤ evaluator.old.steps }
    ensures ticks { at_last_mark work.new ≡ at_last_mark work.old }
{
    if is_condition(e) {
        return condition_result(evaluator, elements(e), work);
    }
    let is_guarded = is_guarded(e);
    if !is_guarded {
        return Ok(Some(e.copy()?));
    }
    if is_form(e, "Module") {
        return module_guard(evaluator, e, work);
    }
    if is_form(e, "With") {
        return with_guard(evaluator, e, work);
    }
    block_guard(evaluator, e, work)
}

/// `r /; c`: r, where the value of c is True.
#[cycle(eval)]
fn condition_result<L: Ledger>(
    evaluator: &mut Evaluator,
    args: &[Expr],
    work: &mut Work<L>,
) -> Result<Option<Expr>, Stop>
    requires sound { Sound evaluator.old }
    requires args { AllHonest evaluator.old args.now }
    ensures played { Played found_tree (matching.condition_result (trees args.now)) evaluator.old result evaluator.new }
    ensures falls { evaluator.new.steps ≤ evaluator.old.steps }
    ensures ticks { at_last_mark work.new ≡ at_last_mark work.old }
{
    let Some((body, condition)) = two(args) else {
        return Ok(None);
    };
    let value = value_of(evaluator, condition, work)?;
    if !is_symbol(&value, "True") {
        return Ok(None);
    }
    Ok(Some(body.copy()?))
}

/// The guard of a Module, which is the expression itself where these aren't its elements.
#[cycle(eval)]
fn module_guard<L: Ledger>(
    evaluator: &mut Evaluator,
    e: &Expr,
    work: &mut Work<L>,
) -> Result<Option<Expr>, Stop>
    requires sound { Sound evaluator.old }
    requires honest { Honest evaluator.old e.now }
    ensures played { (n : ℕ) → 1001 * evaluator.old.steps + depth (plain e.now) ≤ n
        → Played found_tree (guards.module_guard n (plain e.now) (scope_parts names (elements (plain e.now)))) evaluator.old result evaluator.new }
    ensures falls { evaluator.new.steps ≤ evaluator.old.steps }
    ensures ticks { at_last_mark work.new ≡ at_last_mark work.old }
{
    let Some((names, body)) = scope_parts(evaluator.alloc, elements(e), false)? else {
        return Ok(Some(e.copy()?));
    };
    let locals = initials(evaluator, names.as_slice(), work)?;
    let number = evaluator.draw_number();
    let made = renamed(evaluator.alloc, body, locals.as_slice(), number);
    let inner = evaluator.fitted(made, work)?;
    evaluator.set_locals(number, locals.as_slice(), work)?;
    // That it is no deeper than 1,000 is a clause of `depth`.
    let _depth = inner.depth();
    guard(evaluator, &inner, work)
}

/// The guard of a With, in the same way.
#[cycle(eval)]
fn with_guard<L: Ledger>(
    evaluator: &mut Evaluator,
    e: &Expr,
    work: &mut Work<L>,
) -> Result<Option<Expr>, Stop>
    requires sound { Sound evaluator.old }
    requires honest { Honest evaluator.old e.now }
    ensures played { (n : ℕ) → 1001 * evaluator.old.steps + depth (plain e.now) ≤ n
        → Played found_tree (guards.with_guard n (plain e.now) (scope_parts values (elements (plain e.now)))) evaluator.old result evaluator.new }
    ensures falls { evaluator.new.steps ≤ evaluator.old.steps }
    ensures ticks { at_last_mark work.new ≡ at_last_mark work.old }
{
    let Some((names, body)) = scope_parts(evaluator.alloc, elements(e), true)? else {
        return Ok(Some(e.copy()?));
    };
    let locals = initials(evaluator, names.as_slice(), work)?;
    let made = replaced(evaluator.alloc, body, locals.as_slice());
    let inner = evaluator.fitted(made, work)?;
    let _depth = inner.depth();
    guard(evaluator, &inner, work)
}

/// The guard of a Block, in the same way. What it gives is evaluated while the rules are set aside.
#[cycle(eval)]
fn block_guard<L: Ledger>(
    evaluator: &mut Evaluator,
    e: &Expr,
    work: &mut Work<L>,
) -> Result<Option<Expr>, Stop>
    requires sound { Sound evaluator.old }
    requires honest { Honest evaluator.old e.now }
    ensures played { (n : ℕ) → 1001 * evaluator.old.steps + depth (plain e.now) ≤ n
        → Played found_tree (guards.block_guard n (plain e.now) (scope_parts names (elements (plain e.now)))) evaluator.old result evaluator.new }
    ensures falls { evaluator.new.steps ≤ evaluator.old.steps }
    ensures ticks { at_last_mark work.new ≡ at_last_mark work.old }
{
    let Some((names, body)) = scope_parts(evaluator.alloc, elements(e), false)? else {
        return Ok(Some(e.copy()?));
    };
    let locals = initials(evaluator, names.as_slice(), work)?;
    let held = evaluator.set_aside(locals.as_slice(), work)?;
    let found = guarded_value(evaluator, body, work);
    if stops_by_memory(&found) {
        return Err(Stop::Memory);
    }
    evaluator.give_all(held);
    found
}

/// The value of what a guarded body gives.
#[cycle(eval)]
fn guarded_value<L: Ledger>(
    evaluator: &mut Evaluator,
    e: &Expr,
    work: &mut Work<L>,
) -> Result<Option<Expr>, Stop>
    requires sound { Sound evaluator.old }
    requires honest { Honest evaluator.old e.now }
    ensures played { (n : ℕ) → 1001 * evaluator.old.steps + depth (plain e.now) < n
        → Played found_tree (guards.guarded_value n (plain e.now)) evaluator.old result evaluator.new }
    ensures falls { evaluator.new.steps ≤ evaluator.old.steps }
    ensures ticks { at_last_mark work.new ≡ at_last_mark work.old }
{
    let found = guard(evaluator, e, work)?;
    let Some(result) = found else {
        return Ok(None);
    };
    let value = value_of(evaluator, &result, work)?;
    Ok(Some(value))
}
