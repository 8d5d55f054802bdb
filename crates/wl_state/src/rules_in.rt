//! Rules that are read in an expression.
ghost use Rattle.std.specs.Prelude.{◌≡◌, IfOk, List, map, option_map};
ghost use Rattle.std.specs.List.{All};
ghost use Rattle.wl_expr.specs.Passed.{IsFrom};
ghost use Rattle.wl_expr.specs.Stamped.{Stamped, plain};
ghost use Rattle.wl_rules.specs.StampedRules.{plain_rule};
ghost use Rattle.wl_semantics.specs.LeftSides.{moved_condition};
ghost use Rattle.wl_semantics.specs.MatchRows as rows;
ghost use Rattle.wl_state.specs.Replacing.{IsRuleFrom, MaybeRuleFrom, MaybeRulesFrom, conditioned, is_rule_head};

use crate::elements::is_symbol;
use crate::guard::is_condition;
use crate::operands::{pair, symbol};
use std::alloc::Global;
use std::slice;
use wl_expr::{Expr, Look};
use wl_ports::Memory;
use wl_rules::Rule;

/// The left side under a condition. It is no larger than the rule in which both stand, which fits.
fn conditioned(alloc: Global, left: &Expr, test: &Expr) -> Result<Expr, Memory>
    ensures value { IfOk result (λ e. e ≡ conditioned left.now test.now) }
{
    let head = symbol(alloc, "Condition")?;
    match Expr::node(alloc, &head, &[left.copy()?, test.copy()?]) {
        Ok(e) => Ok(e),
        Err(_) => Err(Memory),
    }
}

/// The rule of these sides; a condition of the right one becomes one of the left.
fn rule_from(alloc: Global, left: &Expr, right: &Expr) -> Result<Rule, Memory>
    ensures rule { IfOk result (λ r. plain_rule r ≡ rows.rule_from (moved_condition (plain left.now) (plain right.now))) }
    ensures passed { IfOk result (λ r. (ms : List Stamped) → IsFrom ms left.now → IsFrom ms right.now → IsRuleFrom ms r) }
{
    if !is_condition(right) {
        return whole_rule(left, right);
    }
    let Look::Node(_, args) = right.view() else {
        return whole_rule(left, right);
    };
    let Some((body, test)) = pair(args) else {
        return whole_rule(left, right);
    };
    Ok(Rule {
        left: conditioned(alloc, left, test)?,
        body: body.copy()?,
    })
}

/// The rule of these sides as they stand.
fn whole_rule(left: &Expr, right: &Expr) -> Result<Rule, Memory>
    ensures left { IfOk result (λ r. r.left ≡ left.now) }
    ensures body { IfOk result (λ r. r.body ≡ right.now) }
{
    Ok(Rule {
        left: left.copy()?,
        body: right.copy()?,
    })
}

/// Whether a node with this head and two elements is a rule.
fn is_rule_head(head: &Expr) -> bool
    ensures { result ≡ is_rule_head (plain head.now) }
{
    is_symbol(head, "Rule") || is_symbol(head, "RuleDelayed")
}

/// The rule that the expression is.
fn rule_of(alloc: Global, e: &Expr) -> Result<Option<Rule>, Memory>
    ensures rule { IfOk result (λ o. option_map plain_rule o ≡ rows.rule_of (plain e.now)) }
    ensures passed { IfOk result (λ o. (ms : List Stamped) → IsFrom ms e.now → MaybeRuleFrom ms o) }
{
    let Look::Node(head, args) = e.view() else {
        return Ok(None);
    };
    let Some((left, right)) = pair(args) else {
        return Ok(None);
    };
    if !is_rule_head(head) {
        return Ok(None);
    }
    Ok(Some(rule_from(alloc, left, right)?))
}

/// The delayed rule that the expression is.
pub fn delayed_rule(alloc: Global, e: &Expr) -> Result<Option<Rule>, Memory>
    ensures rule { IfOk result (λ o. option_map plain_rule o ≡ rows.delayed_rule (plain e.now)) }
    ensures passed { IfOk result (λ o. (ms : List Stamped) → IsFrom ms e.now → MaybeRuleFrom ms o) }
{
    let Look::Node(head, args) = e.view() else {
        return Ok(None);
    };
    let Some((left, right)) = pair(args) else {
        return Ok(None);
    };
    if !is_symbol(head, "RuleDelayed") {
        return Ok(None);
    }
    Ok(Some(rule_from(alloc, left, right)?))
}

/// The rules that these are, where each is one.
pub fn rules_of(alloc: Global, parts: &[Expr]) -> Result<Option<Vec<Rule>>, Memory>
    ensures rules { IfOk result (λ o. option_map (λ v. map plain_rule v.items) o ≡ rows.rules_of (map plain parts.now)) }
    ensures passed { IfOk result (λ o. (ms : List Stamped) → All (IsFrom ms) parts.now → MaybeRulesFrom ms o) }
{
    let mut rules = Vec::with_capacity(alloc, parts.len())?;
    for i in 0..parts.len() {
        let Some(rule) = rule_of(alloc, &parts[i])? else {
            return Ok(None);
        };
        rules.push(rule)?;
    }
    Ok(Some(rules))
}

/// The rules of a list of rules, or of one alone.
pub fn rules_in(alloc: Global, e: &Expr) -> Result<Option<Vec<Rule>>, Memory>
    ensures rules { IfOk result (λ o. option_map (λ v. map plain_rule v.items) o ≡ rows.rules_in (plain e.now)) }
    ensures passed { IfOk result (λ o. (ms : List Stamped) → IsFrom ms e.now → MaybeRulesFrom ms o) }
{
    let Look::Node(head, args) = e.view() else {
        return rules_of(alloc, slice::from_ref(e));
    };
    if !is_symbol(head, "List") {
        return rules_of(alloc, slice::from_ref(e));
    }
    rules_of(alloc, args)
}
