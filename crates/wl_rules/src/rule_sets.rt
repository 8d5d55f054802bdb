//! The four lists of rules of an entry.
ghost use Rattle.std.specs.Prelude.{◌≡◌, IfOk, OnOk, OnErr};
ghost use Rattle.std.specs.Bool.{OnFalse};
ghost use Rattle.wl_expr.specs.Stamped.{plain};
ghost use Rattle.wl_rules.specs.Entries.{no_rules, of_kind, with_kind};
ghost use Rattle.wl_rules.specs.RuleLists.{has_left, insert, removed};
ghost use Rattle.wl_rules.specs.StampedRules.{left_of};

use crate::rule::{Rule, RuleKind};
use crate::rule_list::RuleList;
use crate::rule_set::RuleSet;
use std::alloc::Global;
use std::marker::Model;
use wl_expr::Expr;
use wl_ports::Memory;

/// The rules of an entry by their kind.
#[derive(Drop)]
pub(crate) struct RuleSets {
    own: RuleSet,
    down: RuleSet,
    up: RuleSet,
    sub: RuleSet,
}

impl Model for RuleSets {
    ghost use Rattle.wl_rules.specs.Codes.{rules_code};
    ghost use Rattle.wl_rules.specs.Entries.{Rules};
    ghost use Rattle.wl_rules.specs.declared.rule.Rule.{Rule};

    ghost Value = { Rules Rule };

    ghost coded = { rules_code };

    ghost view = { λ s. record { own = s.own; down = s.down; up = s.up; sub = s.sub } };
}

impl RuleSets {
    pub(crate) fn empty(alloc: Global) -> RuleSets
        ensures { result ≡ no_rules }
    {
        RuleSets {
            own: RuleSet::empty(alloc),
            down: RuleSet::empty(alloc),
            up: RuleSet::empty(alloc),
            sub: RuleSet::empty(alloc),
        }
    }

    pub(crate) fn clear(&mut self, alloc: Global)
        ensures { self.new ≡ no_rules }
    {
        self.own = RuleSet::empty(alloc);
        self.down = RuleSet::empty(alloc);
        self.up = RuleSet::empty(alloc);
        self.sub = RuleSet::empty(alloc);
    }

    pub(crate) fn share(&self, kind: RuleKind) -> Result<RuleList, Memory>
        ensures { IfOk result (λ l. l ≡ of_kind kind self.now) }
    {
        match kind {
            RuleKind::Own => self.own.share(),
            RuleKind::Down => self.down.share(),
            RuleKind::Up => self.up.share(),
            RuleKind::Sub => self.sub.share(),
        }
    }

    pub(crate) fn put(&mut self, alloc: Global, kind: RuleKind, rule: Rule) -> Result<(), Memory>
        ensures ok { OnOk result (self.new ≡ with_kind kind (insert left_of rule (of_kind kind self.old)) self.old) }
        ensures err { OnErr result (self.new ≡ self.old) }
    {
        match kind {
            RuleKind::Own => self.own.put(alloc, rule),
            RuleKind::Down => self.down.put(alloc, rule),
            RuleKind::Up => self.up.put(alloc, rule),
            RuleKind::Sub => self.sub.put(alloc, rule),
        }
    }

    pub(crate) fn remove(
        &mut self,
        alloc: Global,
        kind: RuleKind,
        left: &Expr,
    ) -> Result<bool, Memory>
        ensures found { IfOk result (λ b. b ≡ has_left left_of (plain left.now) (of_kind kind self.old)) }
        ensures ok { OnOk result (self.new ≡ with_kind kind (removed left_of (plain left.now) (of_kind kind self.old)) self.old) }
        ensures none { IfOk result (λ b. OnFalse b (self.new ≡ self.old)) }
        ensures err { OnErr result (self.new ≡ self.old) }
    {
        match kind {
            RuleKind::Own => self.own.remove(alloc, left),
            RuleKind::Down => self.down.remove(alloc, left),
            RuleKind::Up => self.up.remove(alloc, left),
            RuleKind::Sub => self.sub.remove(alloc, left),
        }
    }
}
