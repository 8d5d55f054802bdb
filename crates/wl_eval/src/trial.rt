//! Trials of rules.
ghost use Rattle.std.specs.Prelude.{◌≡◌, ◌≤◌, map};
ghost use Rattle.wl_expr.specs.Stamped.{plain};
ghost use Rattle.wl_match.specs.Parts.{kept, whole};
ghost use Rattle.wl_match.specs.Shown.{trail_in};
ghost use Rattle.wl_match.specs.Trials.{Trials};
ghost use Rattle.wl_rules.specs.StampedRules.{plain_rule};
ghost use Rattle.wl_state.specs.Honest.{HonestRule};
ghost use Rattle.wl_semantics.specs.Match as matching;
ghost use Rattle.wl_state.specs.Played.{AllHonest, AllHonestRules, Honest, Played, Sound, found_tree};
ghost use Rattle.wl_state.specs.Searching.{HonestView};
ghost use Rattle.wl_state.specs.Marks.{at_last_mark};

use crate::guard::guard;
use crate::matching::tests_hold;
use wl_expr::Expr;
use wl_match::{Machine, Pattern, View};
use wl_ports::{Ledger, Work};
use wl_rules::{Rule, RuleList};
use wl_shape::fill;
use wl_state::ends::Stop;
use wl_state::evaluator::Evaluator;
use wl_state::guard::is_guarded;
use wl_state::literal::matches_itself;

/// The result of the first of these rules that applies. Later changes of the entry don't touch them.
#[cycle(eval)]
pub(crate) fn trial<L: Ledger>(
    evaluator: &mut Evaluator,
    rules: &RuleList,
    e: &Expr,
    work: &mut Work<L>,
) -> Result<Option<Expr>, Stop>
    requires sound { Sound evaluator.old }
    requires rules { AllHonestRules evaluator.old rules.now }
    requires honest { Honest evaluator.old e.now }
    ensures played { Played found_tree (matching.trial (map plain_rule rules.now) (plain e.now)) evaluator.old result evaluator.new }
    ensures falls { evaluator.new.steps ≤ evaluator.old.steps }
    ensures ticks { at_last_mark work.new ≡ at_last_mark work.old }
{
    for i in 0..rules.len() {
        let Some(rule) = rules.at(i) else {
            unreachable!()
        };
        let found = rule_result(evaluator, rule, e, work)?;
        if let Some(result) = found {
            return Ok(Some(result));
        }
    }
    Ok(None)
}

/// The result of the first of these rules, which were read in an expression, that applies.
#[cycle(eval)]
pub(crate) fn first_result<L: Ledger>(
    evaluator: &mut Evaluator,
    rules: &[Rule],
    e: &Expr,
    work: &mut Work<L>,
) -> Result<Option<Expr>, Stop>
    requires sound { Sound evaluator.old }
    requires rules { AllHonestRules evaluator.old rules.now }
    requires honest { Honest evaluator.old e.now }
    ensures played { Played found_tree (matching.trial (map plain_rule rules.now) (plain e.now)) evaluator.old result evaluator.new }
    ensures falls { evaluator.new.steps ≤ evaluator.old.steps }
    ensures ticks { at_last_mark work.new ≡ at_last_mark work.old }
{
    for i in 0..rules.len() {
        let found = rule_result(evaluator, &rules[i], e, work)?;
        if let Some(result) = found {
            return Ok(Some(result));
        }
    }
    Ok(None)
}

/// The result of a rule, where it applies.
#[cycle(eval)]
pub(crate) fn rule_result<L: Ledger>(
    evaluator: &mut Evaluator,
    rule: &Rule,
    e: &Expr,
    work: &mut Work<L>,
) -> Result<Option<Expr>, Stop>
    requires sound { Sound evaluator.old }
    requires rule { HonestRule evaluator.old.store rule.now }
    requires honest { Honest evaluator.old e.now }
    ensures played { Played found_tree (matching.rule_result (plain_rule rule.now) (plain e.now)) evaluator.old result evaluator.new }
    ensures falls { evaluator.new.steps ≤ evaluator.old.steps }
    ensures ticks { at_last_mark work.new ≡ at_last_mark work.old }
{
    let flags = evaluator.flags_of(&rule.left, work)?;
    if matches_itself(&rule.left, flags.as_slice()) && !rule.left.same(e) {
        evaluator.take_step()?;
        return Ok(None);
    }
    let pattern = Pattern::prepare(evaluator.alloc, &rule.left, flags.as_slice())?;
    first_filling(evaluator, &pattern, e, &rule.body, work)
}

/// The body filled with the first binding whose tests hold.
#[cycle(eval)]
fn first_filling<L: Ledger>(
    evaluator: &mut Evaluator,
    pattern: &Pattern,
    e: &Expr,
    body: &Expr,
    work: &mut Work<L>,
) -> Result<Option<Expr>, Stop>
    requires sound { Sound evaluator.old }
    requires pattern { AllHonest evaluator.old (kept pattern.now) }
    requires honest { Honest evaluator.old e.now }
    requires body { Honest evaluator.old body.now }
    ensures played { Played found_tree (matching.walk (matching.filling (plain body.now)) (Trials (whole pattern.now) (plain e.now))) evaluator.old result evaluator.new }
    ensures falls { evaluator.new.steps ≤ evaluator.old.steps }
    ensures ticks { at_last_mark work.new ≡ at_last_mark work.old }
{
    let mut machine = Machine::start(evaluator.alloc);
    'bindings: loop {
        let found = evaluator.next_candidate(&mut machine, pattern, e, work)?;
        if !found {
            return Ok(None);
        }
        let view = machine.view(pattern, e);
        let filled = filling(evaluator, body, &view, work)?;
        if let Some(result) = filled {
            return Ok(Some(result));
        }
    }
}

/// The body filled with a binding, where its tests hold.
#[cycle(eval)]
fn filling<L: Ledger>(
    evaluator: &mut Evaluator,
    body: &Expr,
    view: &View<'_, '_>,
    work: &mut Work<L>,
) -> Result<Option<Expr>, Stop>
    requires sound { Sound evaluator.old }
    requires view { HonestView evaluator.old view.now }
    requires body { Honest evaluator.old body.now }
    ensures played { Played found_tree (matching.filling (plain body.now) (trail_in view.now)) evaluator.old result evaluator.new }
    ensures falls { evaluator.new.steps ≤ evaluator.old.steps }
    ensures ticks { at_last_mark work.new ≡ at_last_mark work.old }
{
    let _steps = evaluator.steps;
    let holds = tests_hold(evaluator, view, work)?;
    if !holds {
        return Ok(None);
    }
    let made = fill(evaluator.alloc, body, view);
    let filled = evaluator.fitted(made, work)?;
    if !is_guarded(body) {
        return Ok(Some(filled));
    }
    if !is_guarded(&filled) {
        return Ok(Some(filled));
    }
    // That it is no deeper than 1,000 is a clause of `depth`.
    let _depth = filled.depth();
    guard(evaluator, &filled, work)
}
