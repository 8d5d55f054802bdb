//! Replacement: Replace, ReplaceAll and ReplaceRepeated.
ghost use Rattle.std.specs.Prelude.{◌≡◌, ◌≤◌, ◌<◌, [], ℕ, Some, map};
ghost use Rattle.wl_expr.specs.Stamped.{plain};
ghost use Rattle.wl_rules.specs.StampedRules.{plain_rule};
ghost use Rattle.wl_semantics.specs.MatchRows as rows;
ghost use Rattle.wl_state.specs.Parts.{sized_row};
ghost use Rattle.wl_state.specs.Played.{AllHonest, AllHonestRules, Honest, Played, Sound, found_tree, trees};
ghost use Rattle.wl_state.specs.Replacing.{replacing, replacing_each, seen_each, seen_replaced, seen_result};
ghost use Rattle.wl_state.specs.Marks.{at_last_mark};

use crate::evaluation::value_of_built;
use crate::trial::first_result;
use wl_expr::{Expr, Look};
use wl_ports::{Ledger, Work};
use wl_rules::Rule;
use wl_state::ends::Stop;
use wl_state::evaluator::Evaluator;
use wl_state::operands::pair;
use wl_state::replace_rows::{Replaced, ReplacedEach, made, rebuilt, with_part};
use wl_state::rules_in::rules_in;

/// `Replace[e, rules]` tries e as a whole, and gives e where no rule applies.
#[cycle(eval)]
pub(crate) fn replace_row<L: Ledger>(
    evaluator: &mut Evaluator,
    args: &[Expr],
    work: &mut Work<L>,
) -> Result<Option<Expr>, Stop>
    requires sound { Sound evaluator.old }
    requires args { AllHonest evaluator.old args.now }
    ensures played { Played found_tree (sized_row (rows.replace_row (trees args.now))) evaluator.old result evaluator.new }
    ensures falls { evaluator.new.steps ≤ evaluator.old.steps }
    ensures ticks { at_last_mark work.new ≡ at_last_mark work.old }
{
    let Some((e, r)) = pair(args) else {
        return Ok(None);
    };
    let Some(rules) = rules_in(evaluator.alloc, r)? else {
        return Ok(None);
    };
    // That these fit is a clause of `weight`.
    let found = first_result(evaluator, rules.as_slice(), e, work)?;
    let Some(result) = found else {
        let _weight = e.weight();
        return Ok(Some(e.copy()?));
    };
    let _weight = result.weight();
    Ok(Some(result))
}

/// `ReplaceAll[e, rules]`.
#[cycle(eval)]
pub(crate) fn replace_all_row<L: Ledger>(
    evaluator: &mut Evaluator,
    args: &[Expr],
    work: &mut Work<L>,
) -> Result<Option<Expr>, Stop>
    requires sound { Sound evaluator.old }
    requires args { AllHonest evaluator.old args.now }
    ensures played { Played found_tree (sized_row (rows.replace_all_row (trees args.now))) evaluator.old result evaluator.new }
    ensures falls { evaluator.new.steps ≤ evaluator.old.steps }
    ensures ticks { at_last_mark work.new ≡ at_last_mark work.old }
{
    let Some((e, r)) = pair(args) else {
        return Ok(None);
    };
    let Some(rules) = rules_in(evaluator.alloc, r)? else {
        return Ok(None);
    };
    // That it is no deeper than 1,000 is a clause of `depth`.
    let _depth = e.depth();
    let replaced = replace_all(evaluator, rules.as_slice(), e, work)?;
    evaluator.given(made(e, replaced), work)
}

/// `ReplaceRepeated[e, rules]`.
#[cycle(eval)]
pub(crate) fn replace_repeated_row<L: Ledger>(
    evaluator: &mut Evaluator,
    args: &[Expr],
    work: &mut Work<L>,
) -> Result<Option<Expr>, Stop>
    requires sound { Sound evaluator.old }
    requires args { AllHonest evaluator.old args.now }
    ensures played { Played found_tree (sized_row (rows.replace_repeated_row (trees args.now))) evaluator.old result evaluator.new }
    ensures falls { evaluator.new.steps ≤ evaluator.old.steps }
    ensures ticks { at_last_mark work.new ≡ at_last_mark work.old }
{
    let _steps = evaluator.steps;
    let Some((e, r)) = pair(args) else {
        return Ok(None);
    };
    let Some(rules) = rules_in(evaluator.alloc, r)? else {
        return Ok(None);
    };
    let last = replace_repeated(evaluator, rules.as_slice(), e, work)?;
    // That it fits is a clause of `weight`.
    let _weight = last.weight();
    Ok(Some(last))
}

/// Replaces in all parts and evaluates, again and again, until that changes nothing.
#[cycle(eval)]
fn replace_repeated<L: Ledger>(
    evaluator: &mut Evaluator,
    rules: &[Rule],
    first: &Expr,
    work: &mut Work<L>,
) -> Result<Expr, Stop>
    requires sound { Sound evaluator.old }
    requires rules { AllHonestRules evaluator.old rules.now }
    requires honest { Honest evaluator.old first.now }
    ensures played { (n : ℕ) → evaluator.old.steps < n → Played seen_result (rows.replace_repeated n (map plain_rule rules.now) (plain first.now)) evaluator.old result evaluator.new }
    ensures falls { evaluator.new.steps ≤ evaluator.old.steps }
    ensures ticks { at_last_mark work.new ≡ at_last_mark work.old }
{
    let mut subject = first.copy()?;
    loop {
        evaluator.take_step()?;
        // That it is no deeper than 1,000 is a clause of `depth`.
        let _depth = subject.depth();
        let replaced = replace_all(evaluator, rules, &subject, work)?;
        let value = value_of_built(evaluator, made(&subject, replaced), work)?;
        if value.same(&subject) {
            return Ok(subject);
        }
        subject = value;
    }
}

/// The expression with what stands for it as a whole, or for parts of its head and its elements.
#[cycle(eval)]
fn replace_all<L: Ledger>(
    evaluator: &mut Evaluator,
    rules: &[Rule],
    e: &Expr,
    work: &mut Work<L>,
) -> Result<Replaced, Stop>
    requires sound { Sound evaluator.old }
    requires rules { AllHonestRules evaluator.old rules.now }
    requires honest { Honest evaluator.old e.now }
    ensures played { Played (seen_replaced e.now) (replacing (map plain_rule rules.now) (plain e.now)) evaluator.old result evaluator.new }
    ensures falls { evaluator.new.steps ≤ evaluator.old.steps }
    ensures ticks { at_last_mark work.new ≡ at_last_mark work.old }
{
    let found = first_result(evaluator, rules, e, work)?;
    if let Some(result) = found {
        // That it fits is a clause of `weight`.
        let _weight = result.weight();
        return Ok(Replaced::Changed(result));
    }
    let Look::Node(head, args) = e.view() else {
        return Ok(Replaced::Same);
    };
    let new_head = replace_all(evaluator, rules, head, work)?;
    let elements = replace_each(evaluator, rules, args, work)?;
    Ok(rebuilt(evaluator.alloc, head, args, new_head, elements)?)
}

/// The same for elements, one after the other.
#[cycle(eval)]
fn replace_each<L: Ledger>(
    evaluator: &mut Evaluator,
    rules: &[Rule],
    args: &[Expr],
    work: &mut Work<L>,
) -> Result<ReplacedEach, Stop>
    requires sound { Sound evaluator.old }
    requires rules { AllHonestRules evaluator.old rules.now }
    requires args { AllHonest evaluator.old args.now }
    ensures played { Played (seen_each args.now) (replacing_each (Some []) (map plain_rule rules.now) (trees args.now)) evaluator.old result evaluator.new }
    ensures falls { evaluator.new.steps ≤ evaluator.old.steps }
    ensures ticks { at_last_mark work.new ≡ at_last_mark work.old }
{
    let mut before = ReplacedEach::Same;
    for i in 0..args.len() {
        let e = &args[i];
        let part = replace_all(evaluator, rules, e, work)?;
        before = with_part(evaluator.alloc, &args[..i], e, before, part)?;
    }
    Ok(before)
}
