//! Matches: searches from binding to binding, and their tests.
ghost use Rattle.std.specs.Prelude.{◌≡◌, ◌≤◌, ◌<◌, ℕ, List, IfOk, true};
ghost use Rattle.wl_expr.specs.Stamped.{Stamped, plain};
ghost use Rattle.wl_expr.specs.Tree.{Tree};
ghost use Rattle.wl_match.specs.Parts.{kept, whole};
ghost use Rattle.wl_match.specs.Pattern.{Ask};
ghost use Rattle.wl_match.specs.Shown.{AreFrom, Asks, IsTestFrom, trail_in};
ghost use Rattle.wl_match.specs.Trials.{Trials};
ghost use Rattle.wl_semantics.specs.Match as matching;
ghost use Rattle.wl_state.specs.Played.{AllHonest, Honest, Makes, Played, Sound, itself, trees};
ghost use Rattle.wl_state.specs.Searching.{HonestView, passes_within, refuses_within, tests_within, true_of_built};
ghost use Rattle.wl_state.specs.Marks.{at_last_mark};

use crate::evaluation::value_of_built;
use std::slice;
use wl_expr::{Expr, ExprFault};
use wl_match::{Machine, Pattern, Test, View};
use wl_ports::{Ledger, Work};
use wl_shape::fill;
use wl_state::elements::is_symbol;
use wl_state::ends::Stop;
use wl_state::evaluator::Evaluator;
use wl_state::runs::elements_of_run;

/// Whether the pattern matches the expression.
#[cycle(eval)]
pub(crate) fn matches<L: Ledger>(
    evaluator: &mut Evaluator,
    p: &Expr,
    e: &Expr,
    work: &mut Work<L>,
) -> Result<bool, Stop>
    requires sound { Sound evaluator.old }
    requires pattern { Honest evaluator.old p.now }
    requires honest { Honest evaluator.old e.now }
    ensures played { (n : ℕ) → evaluator.old.steps < n
        → Played itself (matching.matches_within n (plain p.now) (plain e.now)) evaluator.old result evaluator.new }
    ensures falls { evaluator.new.steps ≤ evaluator.old.steps }
    ensures ticks { at_last_mark work.new ≡ at_last_mark work.old }
{
    let flags = evaluator.flags_of(p, work)?;
    let pattern = Pattern::prepare(evaluator.alloc, p, flags.as_slice())?;
    has_match(evaluator, &pattern, e, work)
}

/// Whether the pattern has a binding whose tests hold.
#[cycle(eval)]
fn has_match<L: Ledger>(
    evaluator: &mut Evaluator,
    pattern: &Pattern,
    e: &Expr,
    work: &mut Work<L>,
) -> Result<bool, Stop>
    requires sound { Sound evaluator.old }
    requires pattern { AllHonest evaluator.old (kept pattern.now) }
    requires honest { Honest evaluator.old e.now }
    ensures played { (n : ℕ) → evaluator.old.steps ≤ n
        → Played itself (passes_within n (Trials (whole pattern.now) (plain e.now))) evaluator.old result evaluator.new }
    ensures falls { evaluator.new.steps ≤ evaluator.old.steps }
    ensures ticks { at_last_mark work.new ≡ at_last_mark work.old }
{
    let mut machine = Machine::start(evaluator.alloc);
    'bindings: loop {
        let found = evaluator.next_candidate(&mut machine, pattern, e, work)?;
        if !found {
            return Ok(false);
        }
        let view = machine.view(pattern, e);
        let holds = tests_hold(evaluator, &view, work)?;
        if holds {
            return Ok(true);
        }
    }
}

/// Whether the tests of a binding hold, up to the first that doesn't.
#[cycle(eval)]
pub(crate) fn tests_hold<L: Ledger>(
    evaluator: &mut Evaluator,
    view: &View<'_, '_>,
    work: &mut Work<L>,
) -> Result<bool, Stop>
    requires sound { Sound evaluator.old }
    requires view { HonestView evaluator.old view.now }
    ensures played { (n : ℕ) → evaluator.old.steps < n
        → Played itself (tests_within n (trail_in view.now)) evaluator.old result evaluator.new }
    ensures falls { evaluator.new.steps ≤ evaluator.old.steps }
    ensures ticks { at_last_mark work.new ≡ at_last_mark work.old }
{
    for k in 0..u32::MAX {
        match view.test(k) {
            None => return Ok(true),
            Some(test) => {
                let holds = test_holds(evaluator, test, view, work)?;
                if !holds {
                    return Ok(false);
                }
            }
        }
    }
    // More tests take more memory than there is.
    Err(Stop::Memory)
}

/// Whether a test of a binding holds.
#[cycle(eval)]
fn test_holds<L: Ledger>(
    evaluator: &mut Evaluator,
    test: Test<'_, '_>,
    view: &View<'_, '_>,
    work: &mut Work<L>,
) -> Result<bool, Stop>
    requires sound { Sound evaluator.old }
    requires view { HonestView evaluator.old view.now }
    requires passed { (ms : List Stamped) → AreFrom ms view.now → IsTestFrom ms test }
    ensures played { (n : ℕ) (a : Ask) (r : List Tree) → evaluator.old.steps < n → Asks test.entry a r
        → Played itself (matching.test_holds (λ p t. matching.matches_within n p t) (matching.runs (trail_in view.now)) a r) evaluator.old result evaluator.new }
    ensures falls { evaluator.new.steps ≤ evaluator.old.steps }
    ensures ticks { at_last_mark work.new ≡ at_last_mark work.old }
{
    match test {
        Test::Applies(f, run) => {
            let elements = elements_of_run(evaluator.alloc, run)?;
            each_applies(evaluator, f, elements.as_slice(), work)
        }
        Test::Holds(condition) => {
            let made = fill(evaluator.alloc, condition, view);
            is_true(evaluator, made, work)
        }
        Test::Refuses(pattern, run) => {
            let elements = elements_of_run(evaluator.alloc, run)?;
            refuses(evaluator, pattern, elements.as_slice(), work)
        }
    }
}

/// Whether the value of the function of each expression is True, up to the first that isn't.
#[cycle(eval)]
fn each_applies<L: Ledger>(
    evaluator: &mut Evaluator,
    f: &Expr,
    elements: &[Expr],
    work: &mut Work<L>,
) -> Result<bool, Stop>
    requires sound { Sound evaluator.old }
    requires function { Honest evaluator.old f.now }
    requires elements { AllHonest evaluator.old elements.now }
    ensures played { Played itself (matching.each_applies (plain f.now) (trees elements.now)) evaluator.old result evaluator.new }
    ensures falls { evaluator.new.steps ≤ evaluator.old.steps }
    ensures ticks { at_last_mark work.new ≡ at_last_mark work.old }
{
    for i in 0..elements.len() {
        let made = Expr::node(evaluator.alloc, f, slice::from_ref(&elements[i]));
        let holds = is_true(evaluator, made, work)?;
        if !holds {
            return Ok(false);
        }
    }
    Ok(true)
}

/// Whether a pattern doesn't match the one expression that there is.
#[cycle(eval)]
fn refuses<L: Ledger>(
    evaluator: &mut Evaluator,
    pattern: &Expr,
    elements: &[Expr],
    work: &mut Work<L>,
) -> Result<bool, Stop>
    requires sound { Sound evaluator.old }
    requires pattern { Honest evaluator.old pattern.now }
    requires elements { AllHonest evaluator.old elements.now }
    ensures played { (n : ℕ) → evaluator.old.steps < n
        → Played itself (refuses_within n (plain pattern.now) (trees elements.now)) evaluator.old result evaluator.new }
    ensures falls { evaluator.new.steps ≤ evaluator.old.steps }
    ensures ticks { at_last_mark work.new ≡ at_last_mark work.old }
{
    if elements.len() != 1 {
        return Ok(false);
    }
    let found = matches(evaluator, pattern, &elements[0], work)?;
    Ok(!found)
}

/// Whether the value of what was built is True.
#[cycle(eval)]
fn is_true<L: Ledger>(
    evaluator: &mut Evaluator,
    made: Result<Expr, ExprFault>,
    work: &mut Work<L>,
) -> Result<bool, Stop>
    requires sound { Sound evaluator.old }
    requires honest { IfOk made (Honest evaluator.old) }
    ensures played { (t : Tree) → Makes t made → Played itself (true_of_built t) evaluator.old result evaluator.new }
    ensures falls { evaluator.new.steps ≤ evaluator.old.steps }
    ensures ticks { at_last_mark work.new ≡ at_last_mark work.old }
{
    let value = value_of_built(evaluator, made, work)?;
    Ok(is_symbol(&value, "True"))
}
