//! Changes of entries.
ghost use Rattle.std.specs.Prelude.{◌≡◌, ◌≢◌, ◌<◌, ◌^◌, IfOk, OnOk, Ok, Err, true, false, map, unwrap_or};
ghost use Rattle.wl_expr.specs.Stamped.{plain};
ghost use Rattle.wl_expr.specs.Words.{count_of};
ghost use Rattle.wl_rules.specs.Entries.{map_rules};
ghost use Rattle.wl_rules.specs.StampedRules.{plain_rule};
ghost use Rattle.wl_rules.specs.Stored.{IsIndex, entry_at};
ghost use Rattle.wl_rules.specs.declared.fault.StoreFault.TheVariants as refusal;
ghost use Rattle.wl_semantics.specs.Eval.{number_in};
ghost use Rattle.wl_state.specs.Honest.{HonestRule};
ghost use Rattle.wl_semantics.specs.LeftSides.{is_limit, iteration_limit, recursion_limit};
ghost use Rattle.wl_state.specs.Played.{Plays, IsTaken, IsUnprotected, MayHave, Sound, TakesAway, with_number};
ghost use Rattle.wl_semantics.specs.Prog as prog;
ghost use Rattle.wl_state.specs.Marks.{at_last_mark};

use crate::evaluator::{Evaluator, Taken};
use wl_expr::{Expr, Look};
use wl_ports::{Ledger, Memory, Work};
use wl_rules::{Attributes, Rule, RuleKind, RuleList, StoreFault};

/// The answer of a change that isn't refused.
fn unrefused<T: Drop>(changed: Result<T, StoreFault>) -> Result<T, Memory>
    requires { changed ≢ Err refusal.Protected }
    ensures { IfOk result (λ x. changed ≡ Ok x) }
{
    match changed {
        Ok(x) => Ok(x),
        Err(StoreFault::Memory) => Err(Memory),
        Err(StoreFault::Protected) => unreachable!(),
    }
}

/// The integer from 0 up that an expression is, or 0.
fn count_of(value: &Expr) -> u32
    requires { unwrap_or (count_of (plain value.now)) 0 < 2 ^ 32 }
    ensures { result ≡ unwrap_or (count_of (plain value.now)) 0 }
{
    match value.view() {
        Look::Num(number) => {
            if number.den() == 1 && 0 <= number.num() {
                number.num() as u32
            } else {
                0
            }
        }
        _ => 0,
    }
}

/// The integer from 0 up that the body of the first rule is, or 0.
#[tactic(auto, using(crate::proofs::Changing::first_is, crate::proofs::Changing::first_of_none))]
fn first_number(rules: &RuleList) -> u32
    requires { number_in (map plain_rule rules.now) < 2 ^ 32 }
    ensures { result ≡ number_in (map plain_rule rules.now) }
{
    match rules.at(0) {
        None => 0,
        Some(rule) => count_of(&rule.body),
    }
}

impl Evaluator {
    /// Sets the number of a limit, where the name is that of one.
    fn set_number(&mut self, name: &str, number: u32)
        ensures { self.new ≡ with_number name.now number self.old }
    {
        match name {
            "$RecursionLimit" => self.recursion = number,
            "$IterationLimit" => self.iteration = number,
            _ => {}
        }
    }

    /// Sets the number of a limit to that of its first rule, where the name is that of one.
    fn renew_number(&mut self, name: &str, index: u64) -> Result<(), Memory>
        requires index { IsIndex index self.old.store }
        requires small { is_limit name.now ≡ true → number_in (map plain_rule (entry_at index self.old.store).rules.own) < 2 ^ 32 }
        ensures number { OnOk result (self.new ≡ with_number name.now (number_in (map plain_rule (entry_at index self.old.store).rules.own)) self.old) }
        ensures kept { self.new.steps ≡ self.old.steps }
    {
        match name {
            "$RecursionLimit" => {
                let own = self.store.rules(index, RuleKind::Own)?;
                self.recursion = first_number(&own);
            }
            "$IterationLimit" => {
                let own = self.store.rules(index, RuleKind::Own)?;
                self.iteration = first_number(&own);
            }
            _ => {}
        }
        Ok(())
    }

    /// The number of a limit, or 0 where the name isn't that of one.
    fn number_of(&self, name: &str) -> u32
        ensures recursion { name.now ≡ recursion_limit → result ≡ self.now.recursion }
        ensures iteration { name.now ≡ iteration_limit → result ≡ self.now.iteration }
    {
        match name {
            "$RecursionLimit" => self.recursion,
            "$IterationLimit" => self.iteration,
            _ => 0,
        }
    }

    /// Puts a rule in its place, or in that of the one with its left side.
    pub(crate) fn put_rule(&mut self, name: &str, kind: RuleKind, rule: Rule) -> Result<(), Memory>
        requires sound { Sound self.old }
        requires unprotected { IsUnprotected name.now self.old }
        requires honest { HonestRule self.old.store rule }
        requires limits { MayHave name.now (plain rule.body) }
        ensures played { IfOk result (λ _. Plays (prog.doing (prog.put_rule name.now kind (plain_rule rule))) self.old (Ok tt) self.new false) }
        ensures kept { self.new.steps ≡ self.old.steps }
    {
        let index = self.store.index_of(name)?;
        unrefused(self.store.put_rule(index, kind, rule))?;
        self.renew_number(name, index)?;
        self.log = None;
        Ok(())
    }

    /// Takes the rule with this left side away, and answers whether there was one.
    pub(crate) fn remove_rule<L: Ledger>(
        &mut self,
        name: &str,
        kind: RuleKind,
        left: &Expr,
        work: &mut Work<L>,
    ) -> Result<bool, Memory>
        requires sound { Sound self.old }
        requires unprotected { IsUnprotected name.now self.old }
        requires limits { is_limit name.now ≡ false }
        ensures played { IfOk result (λ b. TakesAway name.now kind (plain left.now) self.old b self.new) }
        ensures kept { self.new.steps ≡ self.old.steps }
        ensures ticks { at_last_mark work.new ≡ at_last_mark work.old }
    {
        let index = self.look(name, work)?;
        let found = unrefused(self.store.remove_rule(index, kind, left))?;
        if !found {
            return Ok(false);
        }
        self.log = None;
        Ok(true)
    }

    /// Takes all rules away, and with `all` also attributes, message texts and tags that are off.
    pub(crate) fn clear_entry(&mut self, name: &str, all: bool) -> Result<(), Memory>
        requires sound { Sound self.old }
        requires unprotected { IsUnprotected name.now self.old }
        requires limits { is_limit name.now ≡ false }
        ensures played { IfOk result (λ _. Plays (prog.doing (prog.clear name.now all)) self.old (Ok tt) self.new false) }
        ensures kept { self.new.steps ≡ self.old.steps }
    {
        let index = self.store.index_of(name)?;
        unrefused(self.store.clear(index, all))?;
        self.log = None;
        Ok(())
    }

    /// Sets the attributes.
    pub(crate) fn set_attributes(
        &mut self,
        name: &str,
        attributes: Attributes,
    ) -> Result<(), Memory>
        requires sound { Sound self.old }
        ensures played { IfOk result (λ _. Plays (prog.doing (prog.set_attributes name.now attributes)) self.old (Ok tt) self.new false) }
        ensures kept { self.new.steps ≡ self.old.steps }
    {
        let index = self.store.index_of(name)?;
        self.store.set_attributes(index, attributes);
        self.log = None;
        Ok(())
    }

    /// Stores the text of a message.
    pub(crate) fn put_message(&mut self, name: &str, tag: &str, text: &str) -> Result<(), Memory>
        requires sound { Sound self.old }
        requires unprotected { IsUnprotected name.now self.old }
        ensures played { IfOk result (λ _. Plays (prog.doing (prog.put_message name.now tag.now text.now)) self.old (Ok tt) self.new false) }
        ensures kept { self.new.steps ≡ self.old.steps }
    {
        let index = self.store.index_of(name)?;
        unrefused(self.store.put_message(index, tag, text))?;
        self.log = None;
        Ok(())
    }

    /// Switches a message off, or on again.
    pub(crate) fn set_off(&mut self, name: &str, tag: &str, off: bool) -> Result<(), Memory>
        requires sound { Sound self.old }
        ensures played { IfOk result (λ _. Plays (prog.doing (prog.set_off name.now tag.now off)) self.old (Ok tt) self.new false) }
        ensures kept { self.new.steps ≡ self.old.steps }
    {
        let index = self.store.index_of(name)?;
        self.store.set_off(index, tag, off)?;
        self.log = None;
        Ok(())
    }

    /// Takes all rules out, to be given back later.
    pub(crate) fn take_rules(&mut self, name: &str) -> Result<Taken, Memory>
        requires sound { Sound self.old }
        requires unprotected { IsUnprotected name.now self.old }
        ensures played { IfOk result (λ t. Plays (prog.asking (prog.take_rules name.now)) self.old (Ok (prog.rules (map_rules plain_rule t.rules))) self.new false) }
        ensures taken { IfOk result (λ t. IsTaken self.new name.now t) }
        ensures kept { self.new.steps ≡ self.old.steps }
    {
        let index = self.store.index_of(name)?;
        let number = self.number_of(name);
        let rules = unrefused(self.store.swap_entry(index))?;
        self.set_number(name, 0);
        self.log = None;
        Ok(Taken {
            index,
            rules,
            number,
        })
    }

    /// Gives the rules back that were taken out of the entry of this name. Those that stand there now go.
    pub(crate) fn give_rules(&mut self, name: &str, taken: Taken)
        requires sound { Sound self.old }
        requires taken { IsTaken self.old name.now taken }
        ensures played { Plays (prog.doing (prog.give_rules name.now (map_rules plain_rule taken.rules))) self.old (Ok tt) self.new false }
        ensures kept { self.new.steps ≡ self.old.steps }
    {
        self.store.restore_entry(taken.index, taken.rules);
        self.set_number(name, taken.number);
        self.log = None;
    }
}
