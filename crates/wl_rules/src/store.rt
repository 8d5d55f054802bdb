//! The store of definitions.
ghost use Rattle.std.specs.Prelude.{◌≡◌, ◌≤◌, ◌↔◌, ℕ, None, IfOk, IfSome, IsNone, IsSome, OnOk, OnErr, true, false, option_map, is_some, slice_get};
ghost use Rattle.std.specs.Bool.{OnTrue, OnFalse};
ghost use Rattle.wl_expr.specs.Stamped.{plain};
ghost use Rattle.wl_expr.specs.Words.{Name};
ghost use Rattle.wl_ports.specs.Counted.{add_to_last};
ghost use Rattle.wl_rules.specs.Attributes.{AttributeSet};
ghost use Rattle.wl_rules.specs.Changes.{Defines, Draws, IsShown, with_name, IsProtected};
ghost use Rattle.wl_rules.specs.Entries.{of_kind, put_rule, remove_rule, cleared, with_attributes, with_rules, no_rules, put_message, set_off, left_side, value_at, map_rules};
ghost use Rattle.wl_rules.specs.RuleLists.{has_left};
ghost use Rattle.wl_rules.specs.StampedRules.{left_of, plain_rule};
ghost use Rattle.wl_rules.specs.Start.{start_store};
ghost use Rattle.wl_rules.specs.Stored.{IsIndex, name_at, version_at, entry_at, definitions, changed, next_version};
ghost use Rattle.wl_rules.specs.Tags.{AreByTag};

use crate::attribute::Attributes;
use crate::entry::Entry;
use crate::fault::StoreFault;
use crate::rule::{Rule, RuleKind};
use crate::rule_list::RuleList;
use crate::rule_sets::RuleSets;
use crate::start::start;
use crate::table::Table;
use std::alloc::Global;
use std::marker::Model;
use wl_expr::Expr;
use wl_ports::{Ledger, Memory, Work};

/// The definitions of all names. Each name that was met has an index, which stays, and an entry. Each change of an entry
/// draws a version for it, greater than all before, up to the greatest number of 64 bits, which is given again and again.
#[derive(Drop)]
pub struct Store {
    alloc: Global,
    table: Table,
    drawn: u64,
}

impl Model for Store {
    ghost use Rattle.std.specs.Prelude.{◌≤◌, ℕ};
    ghost use Rattle.wl_rules.specs.Stored.{Stored, row_at};
    ghost use Rattle.wl_rules.specs.StoredCodes.{stored_code};

    ghost Value = { Stored };

    ghost coded = { stored_code };

    ghost view = { λ s. record { rows = s.table; drawn = s.drawn } };

    ghost invariant = { λ s. (j : ℕ) → (row_at j s.table).1.version ≤ s.drawn };
}

impl Store {
    /// The store with the symbols of the tables, in the tables' order, and what they have at the start.
    pub fn new(alloc: Global) -> Result<Store, Memory>
        ensures { IfOk result (λ s. s ≡ start_store) }
    {
        Ok(Store {
            alloc,
            table: start(alloc)?,
            drawn: 0,
        })
    }

    /// What the store has of a name. None where it has no entry of that name.
    pub fn consult<L: Ledger>(&self, name: &str, work: &mut Work<L>) -> Option<EntryView<'_>>
        ensures none { IsNone result ↔ (value_at name.now self.now.rows ≡ None) }
        ensures shown { IfSome result (λ v. IsShown name.now self.now v) }
        ensures ticks { work.new ≡ add_to_last 1 work.old }
    {
        work.tick();
        match self.table.find(name) {
            None => None,
            Some((at, entry)) => Some(EntryView {
                index: at as u64,
                entry,
            }),
        }
    }

    /// The index of a name, with an empty entry of version 0 where there was none.
    pub fn index_of(&mut self, name: &str) -> Result<u64, Memory>
        ensures index { IfOk result (λ i. IsIndex i self.new × (name_at i self.new ≡ name.now)) }
        ensures met { OnOk result (IsSome (value_at name.now self.old.rows) → self.new ≡ self.old) }
        ensures made { OnOk result (value_at name.now self.old.rows ≡ None → self.new ≡ with_name name.now self.old) }
        ensures definitions { OnOk result ((x : Name) → definitions self.new x ≡ definitions self.old x) }
        ensures err { OnErr result (self.new ≡ self.old) }
    {
        if let Some((at, _)) = self.table.find(name) {
            return Ok(at as u64);
        }
        let at = self.table.add(self.alloc, name)?;
        Ok(at as u64)
    }

    /// The version of an entry, which is 0 before its first change.
    pub fn version<L: Ledger>(&self, index: u64, work: &mut Work<L>) -> u64
        requires { IsIndex index self.now }
        ensures value { result ≡ version_at index self.now }
        ensures drawn { result ≤ self.now.drawn }
        ensures ticks { work.new ≡ add_to_last 1 work.old }
    {
        work.tick();
        let _drawn = self.drawn;
        self.table.at(index as usize).version()
    }

    /// The rules of a kind as they are now. Later changes don't touch the list.
    pub fn rules(&self, index: u64, kind: RuleKind) -> Result<RuleList, Memory>
        requires { IsIndex index self.now }
        ensures { IfOk result (λ l. l ≡ of_kind kind (entry_at index self.now).rules) }
    {
        self.table.at(index as usize).rules(kind)
    }

    /// Puts a rule in the place of the one with an identical left side, or else in its place by its key.
    #[tactic(auto, using(crate::proofs::Rows::defines, crate::proofs::Rows::draws, crate::proofs::Rows::versions_changed, crate::proofs::Rows::with_own_slot, crate::proofs::Plain::put_rule_plain))]
    pub fn put_rule(&mut self, index: u64, kind: RuleKind, rule: Rule) -> Result<(), StoreFault>
        requires { IsIndex index self.old }
        ensures ok { OnOk result
            (self.new ≡ changed index (put_rule left_of kind rule (entry_at index self.old)) self.old) }
        ensures defines { OnOk result
            (Defines (name_at index self.old) (put_rule left_side kind (plain_rule rule)) self.old self.new) }
        ensures draws { OnOk result (Draws index self.old self.new) }
        ensures protected { (result ≡ Err StoreFault.Protected) ↔ IsProtected index self.old }
        ensures err { OnErr result (self.new ≡ self.old) }
    {
        let at = index as usize;
        if self.table.at(at).is_protected() {
            return Err(StoreFault::Protected);
        }
        let version = next_version(self.drawn);
        let entry = self.table.at_mut(at);
        entry.put_rule(self.alloc, kind, rule, version)?;
        self.drawn = version;
        Ok(())
    }

    /// Takes away the rule with an identical left side, and answers whether there was one.
    #[tactic(auto, using(crate::proofs::Rows::defines, crate::proofs::Rows::draws, crate::proofs::Rows::versions_changed, crate::proofs::Rows::with_own_slot, crate::proofs::Plain::remove_rule_plain))]
    pub fn remove_rule(
        &mut self,
        index: u64,
        kind: RuleKind,
        left: &Expr,
    ) -> Result<bool, StoreFault>
        requires { IsIndex index self.old }
        ensures found { IfOk result (λ b.
            b ≡ has_left left_of (plain left.now) (of_kind kind (entry_at index self.old).rules)) }
        ensures taken { IfOk result (λ b. OnTrue b
            (self.new ≡ changed index (remove_rule left_of kind (plain left.now) (entry_at index self.old)) self.old)) }
        ensures defines { IfOk result (λ b. OnTrue b
            (Defines (name_at index self.old) (remove_rule left_side kind (plain left.now)) self.old self.new)) }
        ensures draws { IfOk result (λ b. OnTrue b (Draws index self.old self.new)) }
        ensures none { IfOk result (λ b. OnFalse b (self.new ≡ self.old)) }
        ensures protected { (result ≡ Err StoreFault.Protected) ↔ IsProtected index self.old }
        ensures err { OnErr result (self.new ≡ self.old) }
    {
        let at = index as usize;
        if self.table.at(at).is_protected() {
            return Err(StoreFault::Protected);
        }
        let version = next_version(self.drawn);
        let entry = self.table.at_mut(at);
        if !entry.remove_rule(self.alloc, kind, left, version)? {
            return Ok(false);
        }
        self.drawn = version;
        Ok(true)
    }

    /// Takes away the rules, and with `all` also attributes, message texts and tags that are off.
    #[tactic(auto, using(crate::proofs::Rows::defines, crate::proofs::Rows::draws, crate::proofs::Rows::versions_changed, crate::proofs::Rows::with_own_slot, crate::proofs::Plain::cleared_plain))]
    pub fn clear(&mut self, index: u64, all: bool) -> Result<(), StoreFault>
        requires { IsIndex index self.old }
        ensures ok { OnOk result (self.new ≡ changed index (cleared all (entry_at index self.old)) self.old) }
        ensures defines { OnOk result (Defines (name_at index self.old) (cleared all) self.old self.new) }
        ensures draws { OnOk result (Draws index self.old self.new) }
        ensures protected { (result ≡ Err StoreFault.Protected) ↔ IsProtected index self.old }
        ensures err { OnErr result (self.new ≡ self.old) }
    {
        let at = index as usize;
        if self.table.at(at).is_protected() {
            return Err(StoreFault::Protected);
        }
        let version = next_version(self.drawn);
        let entry = self.table.at_mut(at);
        entry.clear(self.alloc, all, version);
        self.drawn = version;
        Ok(())
    }

    /// Sets the attributes, of a Protected symbol too.
    #[tactic(auto, using(crate::proofs::Rows::defines, crate::proofs::Rows::draws, crate::proofs::Rows::versions_changed, crate::proofs::Rows::with_own_slot))]
    pub fn set_attributes(&mut self, index: u64, attributes: Attributes)
        requires { IsIndex index self.old }
        ensures ok { self.new ≡ changed index (with_attributes attributes (entry_at index self.old)) self.old }
        ensures defines { Defines (name_at index self.old) (with_attributes attributes) self.old self.new }
        ensures draws { Draws index self.old self.new }
    {
        let version = next_version(self.drawn);
        let entry = self.table.at_mut(index as usize);
        entry.set_attributes(attributes, version);
        self.drawn = version;
    }

    /// Stores the text of a message.
    #[tactic(auto, using(crate::proofs::Rows::defines, crate::proofs::Rows::draws, crate::proofs::Rows::versions_changed, crate::proofs::Rows::with_own_slot))]
    pub fn put_message(&mut self, index: u64, tag: &str, text: &str) -> Result<(), StoreFault>
        requires { IsIndex index self.old }
        ensures ok { OnOk result
            (self.new ≡ changed index (put_message tag.now text.now (entry_at index self.old)) self.old) }
        ensures defines { OnOk result
            (Defines (name_at index self.old) (put_message tag.now text.now) self.old self.new) }
        ensures draws { OnOk result (Draws index self.old self.new) }
        ensures protected { (result ≡ Err StoreFault.Protected) ↔ IsProtected index self.old }
        ensures err { OnErr result (self.new ≡ self.old) }
    {
        let at = index as usize;
        if self.table.at(at).is_protected() {
            return Err(StoreFault::Protected);
        }
        let version = next_version(self.drawn);
        let entry = self.table.at_mut(at);
        entry.put_message(self.alloc, tag, text, version)?;
        self.drawn = version;
        Ok(())
    }

    /// Switches a message off, or on again, of a Protected symbol too.
    #[tactic(auto, using(crate::proofs::Rows::defines, crate::proofs::Rows::draws, crate::proofs::Rows::versions_changed, crate::proofs::Rows::with_own_slot, crate::proofs::Plain::set_off_plain))]
    pub fn set_off(&mut self, index: u64, tag: &str, off: bool) -> Result<(), Memory>
        requires { IsIndex index self.old }
        ensures ok { OnOk result (self.new ≡ changed index (set_off tag.now off (entry_at index self.old)) self.old) }
        ensures defines { OnOk result (Defines (name_at index self.old) (set_off tag.now off) self.old self.new) }
        ensures draws { OnOk result (Draws index self.old self.new) }
        ensures err { OnErr result (self.new ≡ self.old) }
    {
        let version = next_version(self.drawn);
        let entry = self.table.at_mut(index as usize);
        entry.set_off(self.alloc, tag, off, version)?;
        self.drawn = version;
        Ok(())
    }

    /// Takes the four lists of rules out.
    #[tactic(auto, using(crate::proofs::Rows::defines, crate::proofs::Rows::draws, crate::proofs::Rows::versions_changed, crate::proofs::Rows::with_own_slot))]
    pub fn swap_entry(&mut self, index: u64) -> Result<Saved, StoreFault>
        requires { IsIndex index self.old }
        ensures saved { IfOk result (λ s. s ≡ (entry_at index self.old).rules) }
        ensures ok { OnOk result (self.new ≡ changed index (with_rules no_rules (entry_at index self.old)) self.old) }
        ensures defines { OnOk result (Defines (name_at index self.old) (with_rules no_rules) self.old self.new) }
        ensures draws { OnOk result (Draws index self.old self.new) }
        ensures protected { (result ≡ Err StoreFault.Protected) ↔ IsProtected index self.old }
        ensures err { OnErr result (self.new ≡ self.old) }
    {
        let at = index as usize;
        if self.table.at(at).is_protected() {
            return Err(StoreFault::Protected);
        }
        let version = next_version(self.drawn);
        let entry = self.table.at_mut(at);
        let rules = entry.swap_rules(RuleSets::empty(self.alloc), version);
        self.drawn = version;
        Ok(Saved { rules })
    }

    /// Gives back the four lists of rules that were taken out. Those that stand there now go.
    #[tactic(auto, using(crate::proofs::Rows::defines, crate::proofs::Rows::draws, crate::proofs::Rows::versions_changed, crate::proofs::Rows::with_own_slot))]
    pub fn restore_entry(&mut self, index: u64, saved: Saved)
        requires { IsIndex index self.old }
        ensures ok { self.new ≡ changed index (with_rules saved (entry_at index self.old)) self.old }
        ensures defines { Defines (name_at index self.old) (with_rules (map_rules plain_rule saved)) self.old self.new }
        ensures draws { Draws index self.old self.new }
    {
        let version = next_version(self.drawn);
        let entry = self.table.at_mut(index as usize);
        drop(entry.swap_rules(saved.rules, version));
        self.drawn = version;
    }
}

/// The four lists of rules of an entry, taken out of it.
#[derive(Drop)]
pub struct Saved {
    rules: RuleSets,
}

impl Model for Saved {
    ghost use Rattle.wl_rules.specs.Codes.{rules_code};
    ghost use Rattle.wl_rules.specs.Entries.{Rules};
    ghost use Rattle.wl_rules.specs.declared.rule.Rule.{Rule};

    ghost Value = { Rules Rule };

    ghost coded = { rules_code };

    ghost view = { λ s. s.rules };
}

/// What the store has of a name, but for its rules.
#[derive(Drop)]
pub struct EntryView<'a> {
    index: u64,
    entry: &'a Entry,
}

impl<'a> Model for EntryView<'a> {
    ghost use Rattle.wl_rules.specs.Changes.{Shown};
    ghost use Rattle.wl_rules.specs.StoredCodes.{shown_code};

    ghost Value = { Shown };

    ghost coded = { shown_code };

    ghost view = { λ v. record {
      index = v.index;
      attributes = v.entry.now.entry.attributes;
      messages = v.entry.now.entry.messages;
      off = v.entry.now.entry.off;
    } };
}

impl<'a> EntryView<'a> {
    pub fn index(&self) -> u64
        ensures { result ≡ self.now.index }
    {
        self.index
    }

    pub fn attributes(&self) -> Attributes
        ensures { result ≡ self.now.attributes }
    {
        self.entry.attributes()
    }

    /// The text of a message.
    pub fn message(&self, tag: &str) -> Option<&str>
        ensures { option_map (λ r. r.now) result ≡ value_at tag.now self.now.messages }
    {
        self.entry.message(tag)
    }

    /// Whether a message is switched off.
    pub fn is_off(&self, tag: &str) -> bool
        ensures { result ≡ is_some (value_at tag.now self.now.off) }
    {
        self.entry.is_off(tag)
    }

    /// The tag and the text of the k-th message, from 0, in the order of the tags' bytes.
    pub fn message_at(&self, k: usize) -> Option<(&str, &str)>
        ensures value { option_map (λ p. (p.0.now, p.1.now)) result ≡ slice_get self.now.messages k }
        ensures sorted { AreByTag self.now.messages }
    {
        self.entry.message_at(k)
    }

    /// The k-th tag that is switched off, from 0, in the order of the tags' bytes.
    pub fn off_at(&self, k: usize) -> Option<&str>
        ensures value { option_map (λ r. r.now) result ≡ option_map (λ p. p.0) (slice_get self.now.off k) }
        ensures sorted { AreByTag self.now.off }
    {
        self.entry.off_at(k)
    }
}

/// The number that is drawn after this one.
fn next_version(drawn: u64) -> u64
    ensures { result ≡ next_version drawn }
{
    drawn.saturating_add(1)
}
