//! Matches: MatchQ, MemberQ, Count, Cases, DeleteCases and FreeQ.
ghost use Rattle.std.specs.Prelude.{◌≡◌, ◌≤◌, []};
ghost use Rattle.wl_expr.specs.Stamped.{plain};
ghost use Rattle.wl_expr.specs.Tree.{from_list};
ghost use Rattle.wl_expr.specs.Words.{elements, natural};
ghost use Rattle.wl_rules.specs.StampedRules.{plain_rule};
ghost use Rattle.wl_state.specs.Honest.{HonestRule};
ghost use Rattle.wl_semantics.specs.MatchRows as rows;
ghost use Rattle.wl_state.specs.Parts.{sized_row};
ghost use Rattle.wl_state.specs.Played.{AllHonest, Honest, Played, Sound, found_tree, itself, trees};
ghost use Rattle.wl_state.specs.Replacing.{agrees, found_trees, sifted};
ghost use Rattle.wl_state.specs.Marks.{at_last_mark};

use crate::matching::matches;
use crate::trial::rule_result;
use wl_expr::{Expr, Look};
use wl_ports::{Ledger, Work};
use wl_rules::Rule;
use wl_state::ends::Stop;
use wl_state::evaluator::Evaluator;
use wl_state::match_rows::{agrees, elements, natural, truth};
use wl_state::operands::{list, pair};
use wl_state::rules_in::delayed_rule;

/// `MatchQ[e, p]`.
#[cycle(eval)]
pub(crate) fn match_row<L: Ledger>(
    evaluator: &mut Evaluator,
    args: &[Expr],
    work: &mut Work<L>,
) -> Result<Option<Expr>, Stop>
    requires sound { Sound evaluator.old }
    requires args { AllHonest evaluator.old args.now }
    ensures played { Played found_tree (sized_row (rows.match_row (trees args.now))) evaluator.old result evaluator.new }
    ensures falls { evaluator.new.steps ≤ evaluator.old.steps }
    ensures ticks { at_last_mark work.new ≡ at_last_mark work.old }
{
    let _steps = evaluator.steps;
    let Some((e, p)) = pair(args) else {
        return Ok(None);
    };
    let found = matches(evaluator, p, e, work)?;
    Ok(Some(truth(evaluator.alloc, found)?))
}

/// `MemberQ[e, p]`: whether an element matches.
#[cycle(eval)]
pub(crate) fn member_row<L: Ledger>(
    evaluator: &mut Evaluator,
    args: &[Expr],
    work: &mut Work<L>,
) -> Result<Option<Expr>, Stop>
    requires sound { Sound evaluator.old }
    requires args { AllHonest evaluator.old args.now }
    ensures played { Played found_tree (sized_row (rows.member_row (trees args.now))) evaluator.old result evaluator.new }
    ensures falls { evaluator.new.steps ≤ evaluator.old.steps }
    ensures ticks { at_last_mark work.new ≡ at_last_mark work.old }
{
    let Some((e, p)) = pair(args) else {
        return Ok(None);
    };
    let found = any_matches(evaluator, p, elements(e), work)?;
    Ok(Some(truth(evaluator.alloc, found)?))
}

/// `Count[e, p]`: how many elements match.
#[cycle(eval)]
pub(crate) fn count_row<L: Ledger>(
    evaluator: &mut Evaluator,
    args: &[Expr],
    work: &mut Work<L>,
) -> Result<Option<Expr>, Stop>
    requires sound { Sound evaluator.old }
    requires args { AllHonest evaluator.old args.now }
    ensures played { Played found_tree (sized_row (rows.count_row (trees args.now))) evaluator.old result evaluator.new }
    ensures falls { evaluator.new.steps ≤ evaluator.old.steps }
    ensures ticks { at_last_mark work.new ≡ at_last_mark work.old }
{
    let Some((e, p)) = pair(args) else {
        return Ok(None);
    };
    let count = count_matching(evaluator, p, elements(e), work)?;
    Ok(Some(natural(evaluator.alloc, count)?))
}

/// `Cases[e, p]`: the elements that match, or with `p :> r` what stands for them.
#[cycle(eval)]
pub(crate) fn cases_row<L: Ledger>(
    evaluator: &mut Evaluator,
    args: &[Expr],
    work: &mut Work<L>,
) -> Result<Option<Expr>, Stop>
    requires sound { Sound evaluator.old }
    requires args { AllHonest evaluator.old args.now }
    ensures played { Played found_tree (sized_row (rows.cases_row (trees args.now))) evaluator.old result evaluator.new }
    ensures falls { evaluator.new.steps ≤ evaluator.old.steps }
    ensures ticks { at_last_mark work.new ≡ at_last_mark work.old }
{
    let Some((e, p)) = pair(args) else {
        return Ok(None);
    };
    let cases = cases_in(evaluator, elements(e), p, work)?;
    let made = list(evaluator.alloc, cases.as_slice());
    evaluator.given(made, work)
}

/// `DeleteCases[e, p]`: without the elements that match; an atom stays.
#[cycle(eval)]
pub(crate) fn delete_cases_row<L: Ledger>(
    evaluator: &mut Evaluator,
    args: &[Expr],
    work: &mut Work<L>,
) -> Result<Option<Expr>, Stop>
    requires sound { Sound evaluator.old }
    requires args { AllHonest evaluator.old args.now }
    ensures played { Played found_tree (sized_row (rows.delete_cases_row (trees args.now))) evaluator.old result evaluator.new }
    ensures falls { evaluator.new.steps ≤ evaluator.old.steps }
    ensures ticks { at_last_mark work.new ≡ at_last_mark work.old }
{
    let Some((e, p)) = pair(args) else {
        return Ok(None);
    };
    let Look::Node(head, parts) = e.view() else {
        return Ok(Some(e.copy()?));
    };
    let others = sifted(evaluator, false, p, parts, work)?;
    let made = Expr::node(evaluator.alloc, head, others.as_slice());
    evaluator.given(made, work)
}

/// `FreeQ[e, p]`: whether no part matches.
#[cycle(eval)]
pub(crate) fn free_row<L: Ledger>(
    evaluator: &mut Evaluator,
    args: &[Expr],
    work: &mut Work<L>,
) -> Result<Option<Expr>, Stop>
    requires sound { Sound evaluator.old }
    requires args { AllHonest evaluator.old args.now }
    ensures played { Played found_tree (sized_row (rows.free_row (trees args.now))) evaluator.old result evaluator.new }
    ensures falls { evaluator.new.steps ≤ evaluator.old.steps }
    ensures ticks { at_last_mark work.new ≡ at_last_mark work.old }
{
    let Some((e, p)) = pair(args) else {
        return Ok(None);
    };
    // That it is no deeper than 1,000 is a clause of `depth`.
    let _depth = e.depth();
    let found = any_part(evaluator, p, e, work)?;
    Ok(Some(truth(evaluator.alloc, !found)?))
}

/// Whether one of the expressions matches, up to the first that does.
#[cycle(eval)]
fn any_matches<L: Ledger>(
    evaluator: &mut Evaluator,
    p: &Expr,
    elements: &[Expr],
    work: &mut Work<L>,
) -> Result<bool, Stop>
    requires sound { Sound evaluator.old }
    requires pattern { Honest evaluator.old p.now }
    requires elements { AllHonest evaluator.old elements.now }
    ensures played { Played itself (rows.any_matches (plain p.now) (trees elements.now)) evaluator.old result evaluator.new }
    ensures falls { evaluator.new.steps ≤ evaluator.old.steps }
    ensures ticks { at_last_mark work.new ≡ at_last_mark work.old }
{
    for i in 0..elements.len() {
        let _steps = evaluator.steps;
        let found = matches(evaluator, p, &elements[i], work)?;
        if found {
            return Ok(true);
        }
    }
    Ok(false)
}

/// How many of the expressions match.
#[cycle(eval)]
fn count_matching<L: Ledger>(
    evaluator: &mut Evaluator,
    p: &Expr,
    elements: &[Expr],
    work: &mut Work<L>,
) -> Result<usize, Stop>
    requires sound { Sound evaluator.old }
    requires pattern { Honest evaluator.old p.now }
    requires elements { AllHonest evaluator.old elements.now }
    ensures played { Played itself (rows.count_matching 0 (plain p.now) (trees elements.now)) evaluator.old result evaluator.new }
    ensures falls { evaluator.new.steps ≤ evaluator.old.steps }
    ensures ticks { at_last_mark work.new ≡ at_last_mark work.old }
{
    let mut count: usize = 0;
    for i in 0..elements.len() {
        let _steps = evaluator.steps;
        let found = matches(evaluator, p, &elements[i], work)?;
        if !found {
            continue;
        }
        count += 1;
    }
    Ok(count)
}

/// The expressions that match, or those that don't.
#[cycle(eval)]
fn sifted<L: Ledger>(
    evaluator: &mut Evaluator,
    wanted: bool,
    p: &Expr,
    elements: &[Expr],
    work: &mut Work<L>,
) -> Result<Vec<Expr>, Stop>
    requires sound { Sound evaluator.old }
    requires pattern { Honest evaluator.old p.now }
    requires elements { AllHonest evaluator.old elements.now }
    ensures played { Played found_trees (sifted wanted [] (plain p.now) (trees elements.now)) evaluator.old result evaluator.new }
    ensures falls { evaluator.new.steps ≤ evaluator.old.steps }
    ensures ticks { at_last_mark work.new ≡ at_last_mark work.old }
{
    let mut found = Vec::new(evaluator.alloc);
    for i in 0..elements.len() {
        let e = &elements[i];
        let _steps = evaluator.steps;
        let matches = matches(evaluator, p, e, work)?;
        if !agrees(wanted, matches) {
            continue;
        }
        found.push(e.copy()?)?;
    }
    Ok(found)
}

/// What Cases finds: a delayed rule gives results, anything else is a pattern.
#[cycle(eval)]
fn cases_in<L: Ledger>(
    evaluator: &mut Evaluator,
    elements: &[Expr],
    p: &Expr,
    work: &mut Work<L>,
) -> Result<Vec<Expr>, Stop>
    requires sound { Sound evaluator.old }
    requires pattern { Honest evaluator.old p.now }
    requires elements { AllHonest evaluator.old elements.now }
    ensures played { Played found_trees (rows.cases_in (trees elements.now) (plain p.now) (rows.delayed_rule (plain p.now))) evaluator.old result evaluator.new }
    ensures falls { evaluator.new.steps ≤ evaluator.old.steps }
    ensures ticks { at_last_mark work.new ≡ at_last_mark work.old }
{
    match delayed_rule(evaluator.alloc, p)? {
        None => sifted(evaluator, true, p, elements, work),
        Some(rule) => cases_by(evaluator, &rule, elements, work),
    }
}

/// The results of a rule for those of the expressions that it applies to.
#[cycle(eval)]
fn cases_by<L: Ledger>(
    evaluator: &mut Evaluator,
    rule: &Rule,
    elements: &[Expr],
    work: &mut Work<L>,
) -> Result<Vec<Expr>, Stop>
    requires sound { Sound evaluator.old }
    requires rule { HonestRule evaluator.old.store rule.now }
    requires elements { AllHonest evaluator.old elements.now }
    ensures played { Played found_trees (rows.cases_by [] (plain_rule rule.now) (trees elements.now)) evaluator.old result evaluator.new }
    ensures falls { evaluator.new.steps ≤ evaluator.old.steps }
    ensures ticks { at_last_mark work.new ≡ at_last_mark work.old }
{
    let mut found = Vec::new(evaluator.alloc);
    for i in 0..elements.len() {
        let result = rule_result(evaluator, rule, &elements[i], work)?;
        let Some(result) = result else {
            continue;
        };
        found.push(result)?;
    }
    Ok(found)
}

/// Whether a part matches, the head's before the elements', up to the first that does.
#[cycle(eval)]
fn any_part<L: Ledger>(
    evaluator: &mut Evaluator,
    p: &Expr,
    e: &Expr,
    work: &mut Work<L>,
) -> Result<bool, Stop>
    requires sound { Sound evaluator.old }
    requires pattern { Honest evaluator.old p.now }
    requires honest { Honest evaluator.old e.now }
    ensures played { Played itself (rows.any_matches (plain p.now) (rows.parts (plain e.now))) evaluator.old result evaluator.new }
    ensures falls { evaluator.new.steps ≤ evaluator.old.steps }
    ensures ticks { at_last_mark work.new ≡ at_last_mark work.old }
{
    let _steps = evaluator.steps;
    let found = matches(evaluator, p, e, work)?;
    if found {
        return Ok(true);
    }
    let Look::Node(head, args) = e.view() else {
        return Ok(false);
    };
    let in_head = any_part(evaluator, p, head, work)?;
    if in_head {
        return Ok(true);
    }
    any_part_in(evaluator, p, args, work)
}

/// Whether a part of one of the elements matches.
#[cycle(eval)]
fn any_part_in<L: Ledger>(
    evaluator: &mut Evaluator,
    p: &Expr,
    elements: &[Expr],
    work: &mut Work<L>,
) -> Result<bool, Stop>
    requires sound { Sound evaluator.old }
    requires pattern { Honest evaluator.old p.now }
    requires elements { AllHonest evaluator.old elements.now }
    ensures played { Played itself (rows.any_matches (plain p.now) (rows.parts_in (from_list (trees elements.now)))) evaluator.old result evaluator.new }
    ensures falls { evaluator.new.steps ≤ evaluator.old.steps }
    ensures ticks { at_last_mark work.new ≡ at_last_mark work.old }
{
    for i in 0..elements.len() {
        let found = any_part(evaluator, p, &elements[i], work)?;
        if found {
            return Ok(true);
        }
    }
    Ok(false)
}
