//! The entry of a name.
ghost use Rattle.std.specs.Prelude.{◌≡◌, ◌↔◌, true, false, IfOk, IfSome, OnOk, OnErr, option_copied, option_map, slice_get};
ghost use Rattle.std.specs.Bool.{OnTrue, OnFalse};
ghost use Rattle.wl_expr.specs.Stamped.{plain};
ghost use Rattle.wl_rules.specs.Attributes.{AttributeSet};
ghost use Rattle.wl_rules.specs.Entries.{of_kind, put_rule, remove_rule, cleared, with_attributes, with_rules, put_message, set_off, message, is_off};
ghost use Rattle.wl_rules.specs.RuleLists.{has_left};
ghost use Rattle.wl_rules.specs.StampedRules.{left_of};
ghost use Rattle.wl_rules.specs.Stored.{new_slot};
ghost use Rattle.wl_rules.specs.Tags.{AreByTag};

use crate::attribute::{Attribute, Attributes};
use crate::rule::{Rule, RuleKind};
use crate::rule_list::RuleList;
use crate::rule_sets::RuleSets;
use std::alloc::Global;
use std::collections::BTreeMap;
use std::marker::Model;
use std::mem;
use wl_expr::Expr;
use wl_ports::Memory;

/// An entry, and the version that was drawn for its last change.
#[derive(Drop)]
pub(crate) struct Entry {
    version: u64,
    rules: RuleSets,
    attributes: Attributes,
    messages: BTreeMap<String, String>,
    off: BTreeMap<String, ()>,
}

impl Model for Entry {
    ghost use Rattle.wl_rules.specs.Stored.{Slot};
    ghost use Rattle.wl_rules.specs.StoredCodes.{slot_code};

    ghost Value = { Slot };

    ghost coded = { slot_code };

    ghost use Rattle.wl_rules.specs.EntryInside.{slot_of};

    ghost view = { slot_of };
}

impl Entry {
    pub(crate) fn empty(alloc: Global) -> Entry
        ensures { result ≡ new_slot }
    {
        Entry {
            version: 0,
            rules: RuleSets::empty(alloc),
            attributes: Attributes::none(),
            messages: BTreeMap::new(alloc),
            off: BTreeMap::new(alloc),
        }
    }

    pub(crate) fn version(&self) -> u64
        ensures { result ≡ self.now.version }
    {
        self.version
    }

    pub(crate) fn attributes(&self) -> Attributes
        ensures { result ≡ self.now.entry.attributes }
    {
        self.attributes
    }

    pub(crate) fn is_protected(&self) -> bool
        ensures { result ≡ self.now.entry.attributes.protected }
    {
        self.attributes.has(Attribute::Protected)
    }

    pub(crate) fn rules(&self, kind: RuleKind) -> Result<RuleList, Memory>
        ensures { IfOk result (λ l. l ≡ of_kind kind self.now.entry.rules) }
    {
        self.rules.share(kind)
    }

    pub(crate) fn put_rule(
        &mut self,
        alloc: Global,
        kind: RuleKind,
        rule: Rule,
        version: u64,
    ) -> Result<(), Memory>
        ensures ok { OnOk result (self.new ≡ record { version = version; entry = put_rule left_of kind rule self.old.entry }) }
        ensures err { OnErr result (self.new ≡ self.old) }
    {
        self.rules.put(alloc, kind, rule)?;
        self.version = version;
        Ok(())
    }

    pub(crate) fn remove_rule(
        &mut self,
        alloc: Global,
        kind: RuleKind,
        left: &Expr,
        version: u64,
    ) -> Result<bool, Memory>
        ensures found { IfOk result (λ b. b ≡ has_left left_of (plain left.now) (of_kind kind self.old.entry.rules)) }
        ensures taken { IfOk result (λ b. OnTrue b
            (self.new ≡ record { version = version; entry = remove_rule left_of kind (plain left.now) self.old.entry })) }
        ensures none { IfOk result (λ b. OnFalse b (self.new ≡ self.old)) }
        ensures err { OnErr result (self.new ≡ self.old) }
    {
        let found = self.rules.remove(alloc, kind, left)?;
        if found {
            self.version = version;
        }
        Ok(found)
    }

    pub(crate) fn clear(&mut self, alloc: Global, all: bool, version: u64)
        ensures { self.new ≡ record { version = version; entry = cleared all self.old.entry } }
    {
        self.version = version;
        self.rules.clear(alloc);
        if all {
            self.attributes = Attributes::none();
            self.messages = BTreeMap::new(alloc);
            self.off = BTreeMap::new(alloc);
        }
    }

    pub(crate) fn set_attributes(&mut self, attributes: Attributes, version: u64)
        ensures { self.new ≡ record { version = version; entry = with_attributes attributes self.old.entry } }
    {
        self.version = version;
        self.attributes = attributes;
    }

    pub(crate) fn put_message(
        &mut self,
        alloc: Global,
        tag: &str,
        text: &str,
        version: u64,
    ) -> Result<(), Memory>
        ensures ok { OnOk result (self.new ≡ record { version = version; entry = put_message tag.now text.now self.old.entry }) }
        ensures err { OnErr result (self.new ≡ self.old) }
    {
        let tag = String::from_str(alloc, tag)?;
        let text = String::from_str(alloc, text)?;
        self.messages.insert(tag, text)?;
        self.version = version;
        Ok(())
    }

    pub(crate) fn set_off(
        &mut self,
        alloc: Global,
        tag: &str,
        off: bool,
        version: u64,
    ) -> Result<(), Memory>
        ensures ok { OnOk result (self.new ≡ record { version = version; entry = set_off tag.now off self.old.entry }) }
        ensures err { OnErr result (self.new ≡ self.old) }
    {
        if off {
            return self.switch_off(alloc, tag, version);
        }
        self.switch_on(tag, version);
        Ok(())
    }

    fn switch_off(&mut self, alloc: Global, tag: &str, version: u64) -> Result<(), Memory>
        ensures ok { OnOk result (self.new ≡ record { version = version; entry = set_off tag.now true self.old.entry }) }
        ensures err { OnErr result (self.new ≡ self.old) }
    {
        let tag = String::from_str(alloc, tag)?;
        self.off.insert(tag, ())?;
        self.version = version;
        Ok(())
    }

    fn switch_on(&mut self, tag: &str, version: u64)
        ensures { self.new ≡ record { version = version; entry = set_off tag.now false self.old.entry } }
    {
        self.off.remove(tag);
        self.version = version;
    }

    /// Puts these rules in the place of its own, which it gives.
    pub(crate) fn swap_rules(&mut self, rules: RuleSets, version: u64) -> RuleSets
        ensures given { result ≡ self.old.entry.rules }
        ensures changed { self.new ≡ record { version = version; entry = with_rules rules self.old.entry } }
    {
        self.version = version;
        mem::replace(&mut self.rules, rules)
    }

    /// The text of a message.
    pub(crate) fn message(&self, tag: &str) -> Option<&str>
        ensures { option_map (λ r. r.now) result ≡ message self.now.entry tag.now }
    {
        match self.messages.get(tag) {
            None => None,
            Some(text) => Some(text.as_str()),
        }
    }

    pub(crate) fn is_off(&self, tag: &str) -> bool
        ensures { result ≡ is_off self.now.entry tag.now }
    {
        self.off.contains_key(tag)
    }

    /// The tag and the text of the k-th message.
    pub(crate) fn message_at(&self, k: usize) -> Option<(&str, &str)>
        ensures value { option_map (λ p. (p.0.now, p.1.now)) result ≡ slice_get self.now.entry.messages k }
        ensures sorted { AreByTag self.now.entry.messages }
    {
        match self.messages.iter().nth(k) {
            None => None,
            Some((tag, text)) => Some((tag.as_str(), text.as_str())),
        }
    }

    /// The k-th tag that is off.
    pub(crate) fn off_at(&self, k: usize) -> Option<&str>
        ensures value { option_map (λ r. r.now) result ≡ option_map (λ p. p.0) (slice_get self.now.entry.off k) }
        ensures sorted { AreByTag self.now.entry.off }
    {
        match self.off.iter().nth(k) {
            None => None,
            Some((tag, _)) => Some(tag.as_str()),
        }
    }
}
