//! A rule as a list keeps it.
ghost use Rattle.std.specs.Prelude.{◌≡◌, IfOk};
ghost use Rattle.wl_expr.specs.Stamped.{plain};
ghost use Rattle.wl_rules.specs.Key.{key_of};

use crate::key::Key;
use crate::rule::Rule;
use std::alloc::Global;
use std::marker::Model;
use wl_ports::Memory;

/// A rule with the key of its left side.
#[derive(Drop)]
pub(crate) struct Kept {
    rule: Rule,
    key: Key,
}

impl Model for Kept {
    ghost use Rattle.std.specs.Prelude.{◌≡◌};
    ghost use Rattle.wl_expr.specs.Stamped.{plain};
    ghost use Rattle.wl_rules.specs.Codes.{rule_code};
    ghost use Rattle.wl_rules.specs.Key.{key_of};
    ghost use Rattle.wl_rules.specs.declared.rule.Rule.{Rule};

    ghost Value = { Rule };

    ghost coded = { rule_code };

    ghost view = { λ k. k.rule };

    ghost invariant = { λ k. k.key ≡ key_of (plain k.rule.left) };
}

impl Kept {
    pub(crate) fn new(alloc: Global, rule: Rule) -> Result<Kept, Memory>
        ensures { IfOk result (λ k. k ≡ rule) }
    {
        let key = Key::of(alloc, &rule.left)?;
        Ok(Kept { rule, key })
    }

    pub(crate) fn rule(&self) -> &Rule
        ensures { result.now ≡ self.now }
    {
        &self.rule
    }

    pub(crate) fn key(&self) -> &Key
        ensures { result.now ≡ key_of (plain self.now.left) }
    {
        &self.key
    }

    /// The same rule, which shares its trees.
    pub(crate) fn copy(&self) -> Result<Kept, Memory>
        ensures { IfOk result (λ k. k ≡ self.now) }
    {
        Ok(Kept {
            rule: self.rule.copy()?,
            key: self.key.copy()?,
        })
    }
}
