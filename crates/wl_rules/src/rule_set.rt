//! The rules of one kind in an entry.
ghost use Rattle.std.specs.Prelude.{◌≡◌, ◌≤◌, true, false, List, [], IfOk, OnOk, OnErr, length};
ghost use Rattle.std.specs.HashSet.{contains};
ghost use Rattle.std.specs.Bool.{OnFalse};
ghost use Rattle.wl_expr.specs.Stamped.{plain};
ghost use Rattle.wl_rules.specs.Edits.{CanEdit, edited};
ghost use Rattle.wl_rules.specs.declared.rule.Rule.{Rule as StoredRule};
ghost use Rattle.wl_rules.specs.RuleLists.{has_left, insert, removed, IsInOrder};
ghost use Rattle.wl_rules.specs.StampedRules.{left_of, same_left, is_upto, IsPlaceOf, IsPlaceByKey, AreKnown};

use crate::kept::Kept;
use crate::key::Key;
use crate::rule::Rule;
use crate::rule_list::{Edit, RuleList};
use std::alloc::Global;
use std::collections::HashSet;
use std::marker::Model;
use wl_expr::Expr;
use wl_ports::Memory;

/// Rules in their order, and a set in which each of their left sides is. One may stay there when its rule goes.
#[derive(Drop)]
pub(crate) struct RuleSet {
    list: RuleList,
    lefts: HashSet<Expr>,
}

impl Model for RuleSet {
    ghost use Rattle.std.specs.Prelude.{List};
    ghost use Rattle.std.specs.HashSet.{contains};
    ghost use Rattle.wl_rules.specs.Codes.{list_code};
    ghost use Rattle.wl_rules.specs.RuleLists.{IsInOrder};
    ghost use Rattle.wl_rules.specs.StampedRules.{left_of, same_left, AreKnown};
    ghost use Rattle.wl_rules.specs.declared.rule.Rule.{Rule};

    ghost Value = { List Rule };

    ghost coded = { list_code };

    ghost view = { λ s. s.list };

    ghost invariant = { λ s. IsInOrder left_of s.list × AreKnown (contains same_left s.lefts) s.list };
}

impl RuleSet {
    pub(crate) fn empty(alloc: Global) -> RuleSet
        ensures { result ≡ [] }
    {
        RuleSet {
            list: RuleList::empty(),
            lefts: HashSet::new(alloc),
        }
    }

    pub(crate) fn share(&self) -> Result<RuleList, Memory>
        ensures { IfOk result (λ l. l ≡ self.now) }
    {
        self.list.share()
    }

    /// Puts a rule in the place of the one with its left side, or in its place by its key.
    pub(crate) fn put(&mut self, alloc: Global, rule: Rule) -> Result<(), Memory>
        ensures ok { OnOk result (self.new ≡ insert left_of rule self.old) }
        ensures err { OnErr result (self.new ≡ self.old) }
    {
        let kept = Kept::new(alloc, rule)?;
        let is_new = note_left(&mut self.lefts, &kept.rule().left)?;
        let edit = edit_to_put(self.list.kept(), kept, is_new);
        self.list.edit(alloc, edit)
    }

    /// Takes away the rule with this left side, and answers whether there was one.
    pub(crate) fn remove(&mut self, alloc: Global, left: &Expr) -> Result<bool, Memory>
        ensures found { IfOk result (λ b. b ≡ has_left left_of (plain left.now) self.old) }
        ensures ok { OnOk result (self.new ≡ removed left_of (plain left.now) self.old) }
        ensures none { IfOk result (λ b. OnFalse b (self.new ≡ self.old)) }
        ensures err { OnErr result (self.new ≡ self.old) }
    {
        match place_of(self.list.kept(), left) {
            None => Ok(false),
            Some(at) => {
                self.list.edit(alloc, Edit::Remove(at))?;
                Ok(true)
            }
        }
    }
}

/// Puts a left side among those that are known, and answers whether it is new.
fn note_left(lefts: &mut HashSet<Expr>, left: &Expr) -> Result<bool, Memory>
    ensures kept { (rules : List StoredRule) → AreKnown (contains same_left lefts.old) rules
        → AreKnown (contains same_left lefts.new) rules }
    ensures noted { OnOk result (contains same_left lefts.new left.now ≡ true) }
    ensures is_new { IfOk result (λ b. (rules : List StoredRule) → AreKnown (contains same_left lefts.old) rules
        → b ≡ true → has_left left_of (plain left.now) rules ≡ false) }
{
    let left = left.copy()?;
    Ok(lefts.insert(left)?)
}

/// What puts a rule among these.
#[tactic(auto, using(crate::proofs::Places::insert_found, crate::proofs::Places::insert_absent))]
fn edit_to_put(rules: &[Kept], kept: Kept, is_new: bool) -> Edit
    requires order { IsInOrder left_of rules.now }
    requires known { is_new ≡ true → has_left left_of (left_of kept) rules.now ≡ false }
    ensures can { CanEdit result rules.now }
    ensures edited { edited result rules.now ≡ insert left_of kept rules.now }
{
    match place_to_replace(rules, &kept.rule().left, is_new) {
        Some(at) => Edit::Replace(at, kept),
        None => {
            let at = place_by_key(rules, kept.key());
            Edit::Insert(at, kept)
        }
    }
}

/// Where the rule with this left side stands. Where the left side is new, none is compared with it.
fn place_to_replace(rules: &[Kept], left: &Expr, is_new: bool) -> Option<usize>
    requires { is_new ≡ true → has_left left_of (plain left.now) rules.now ≡ false }
    ensures { IsPlaceOf (plain left.now) rules.now result }
{
    if is_new {
        return None;
    }
    place_of(rules, left)
}

/// Where the rule with this left side stands.
fn place_of(rules: &[Kept], left: &Expr) -> Option<usize>
    ensures { IsPlaceOf (plain left.now) rules.now result }
{
    for (at, kept) in rules.iter().enumerate() {
        if left.same(&kept.rule().left) {
            return Some(at);
        }
    }
    None
}

/// Behind how many rules a rule of this key goes.
fn place_by_key(rules: &[Kept], key: &Key) -> usize
    requires { IsInOrder left_of rules.now }
    ensures bound { result ≤ length rules.now }
    ensures place { IsPlaceByKey key.now rules.now result }
{
    rules.partition_point(
        |kept: &Kept| -> bool
            ensures { result ≡ is_upto key.entry.now kept.now }
        { kept.key().order(key).is_le() },
    )
}
