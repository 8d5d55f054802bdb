//! Steps, and looks at entries.
ghost use Rattle.std.specs.Prelude.{◌≡◌, ◌≤◌, ◌+◌, IfOk, OnOk, Ok, false, [], map};
ghost use Rattle.wl_expr.specs.Stamped.{plain};
ghost use Rattle.wl_expr.specs.Tree.{symbol};
ghost use Rattle.wl_expr.specs.Words.{Name};
ghost use Rattle.wl_match.specs.Heads.{heads};
ghost use Rattle.wl_match.specs.declared.flags.Flags as spec_flags;
ghost use Rattle.wl_rules.specs.Entries.{of_kind};
ghost use Rattle.wl_rules.specs.StampedRules.{plain_rule};
ghost use Rattle.wl_rules.specs.Stored.{definitions};
ghost use Rattle.wl_stamps.specs.Reads.{noted};
ghost use Rattle.wl_semantics.specs.Match as matching;
ghost use Rattle.wl_state.specs.Played.{Played, Plays, Looked, Sound, AllHonestRules, itself};
ghost use Rattle.wl_semantics.specs.Prog as prog;
ghost use Rattle.wl_state.specs.Marks.{at_last_mark};

use crate::ends::Stop;
use crate::evaluator::{Evaluator, Log};
use wl_expr::Expr;
use wl_match::{Flags, head_at, head_count};
use wl_ports::{Ledger, Memory, Work};
use wl_rules::{Attribute, Attributes, RuleKind, RuleList};

impl Log {
    /// Notes that the name of this index was read at this version, where it wasn't noted before.
    fn note(&mut self, index: u64, version: u64) -> Result<(), Memory>
        ensures { OnOk result (self.new ≡ record self.old { reads = noted self.old.reads (index, version) }) }
    {
        self.reads.note(index, version)
    }
}

impl Evaluator {
    /// Takes a step, where one is left.
    pub fn take_step(&mut self) -> Result<(), Stop>
        ensures played { Played itself prog.tick self.old result self.new }
        ensures falls { self.new.steps ≤ self.old.steps }
        ensures less { IfOk result (λ _. self.new.steps + 1 ≤ self.old.steps) }
    {
        if self.steps == 0 {
            return Err(Stop::BudgetEnded);
        }
        self.steps -= 1;
        Ok(())
    }

    /// Looks at the entry of a name, and gives its index.
    pub(crate) fn look<L: Ledger>(&mut self, name: &str, work: &mut Work<L>) -> Result<u64, Memory>
        requires sound { Sound self.old }
        ensures played { IfOk result (λ i. Looked name.now self.old i self.new) }
        ensures kept { self.new.steps ≡ self.old.steps }
        ensures ticks { at_last_mark work.new ≡ at_last_mark work.old }
    {
        let index = self.store.index_of(name)?;
        let Some(log) = &mut self.log else {
            return Ok(index);
        };
        let version = self.store.version(index, work);
        log.note(index, version)?;
        Ok(index)
    }

    /// Notes that the entry of a name is looked at.
    fn note_look<L: Ledger>(&mut self, name: &str, work: &mut Work<L>) -> Result<(), Memory>
        requires sound { Sound self.old }
        ensures played { IfOk result (λ _. Plays (prog.entry_of name.now) self.old (Ok (definitions self.old.store name.now)) self.new false) }
        ensures kept { self.new.steps ≡ self.old.steps }
        ensures ticks { at_last_mark work.new ≡ at_last_mark work.old }
    {
        if self.log.is_none() {
            return Ok(());
        }
        let _index = self.look(name, work)?;
        Ok(())
    }

    /// The attributes of a symbol.
    pub(crate) fn attributes_of<L: Ledger>(
        &mut self,
        name: &str,
        work: &mut Work<L>,
    ) -> Result<Attributes, Memory>
        requires sound { Sound self.old }
        ensures looked { IfOk result (λ _. Plays (prog.entry_of name.now) self.old (Ok (definitions self.old.store name.now)) self.new false) }
        ensures played { IfOk result (λ a. Plays (prog.attributes_of (symbol name.now)) self.old (Ok a) self.new false) }
        ensures value { IfOk result (λ a. a ≡ (definitions self.old.store name.now).attributes) }
        ensures kept { self.new.steps ≡ self.old.steps }
        ensures ticks { at_last_mark work.new ≡ at_last_mark work.old }
    {
        self.note_look(name, work)?;
        match self.store.consult(name, work) {
            Some(entry) => Ok(entry.attributes()),
            None => Ok(Attributes::none()),
        }
    }

    /// Whether a symbol is Protected.
    pub fn is_protected<L: Ledger>(
        &mut self,
        name: &str,
        work: &mut Work<L>,
    ) -> Result<bool, Memory>
        requires sound { Sound self.old }
        ensures played { IfOk result (λ b. Plays (prog.is_protected name.now) self.old (Ok b) self.new false) }
        ensures value { IfOk result (λ b. b ≡ (definitions self.new.store name.now).attributes.protected) }
        ensures kept { self.new.steps ≡ self.old.steps }
        ensures ticks { at_last_mark work.new ≡ at_last_mark work.old }
    {
        let attributes = self.attributes_of(name, work)?;
        Ok(attributes.has(Attribute::Protected))
    }

    /// The rules of a kind that a symbol has now.
    pub fn rules_of<L: Ledger>(
        &mut self,
        name: &str,
        kind: RuleKind,
        work: &mut Work<L>,
    ) -> Result<RuleList, Memory>
        requires sound { Sound self.old }
        ensures played { IfOk result (λ _. Plays (prog.entry_of name.now) self.old (Ok (definitions self.old.store name.now)) self.new false) }
        ensures rules { IfOk result (λ l. map plain_rule l ≡ of_kind kind (definitions self.old.store name.now).rules) }
        ensures honest { IfOk result (λ l. AllHonestRules self.new l) }
        ensures kept { self.new.steps ≡ self.old.steps }
        ensures ticks { at_last_mark work.new ≡ at_last_mark work.old }
    {
        let index = self.look(name, work)?;
        Ok(self.store.rules(index, kind)?)
    }

    /// The flags of the symbols that are heads in a pattern, in their order.
    pub fn flags_of<L: Ledger>(
        &mut self,
        pattern: &Expr,
        work: &mut Work<L>,
    ) -> Result<Vec<Flags>, Memory>
        requires sound { Sound self.old }
        ensures played { IfOk result (λ fs. (f : Name → spec_flags.Flags)
            × Plays (matching.flags_of [] (heads (plain pattern.now))) self.old (Ok f) self.new false
            × (fs.items ≡ map f (heads (plain pattern.now)))) }
        ensures kept { self.new.steps ≡ self.old.steps }
        ensures ticks { at_last_mark work.new ≡ at_last_mark work.old }
    {
        let mut flags = Vec::new(self.alloc);
        for k in 0..head_count(pattern) {
            let Some(name) = head_at(pattern, k) else {
                unreachable!()
            };
            let attributes = self.attributes_of(name, work)?;
            flags.push(Flags {
                flat: attributes.has(Attribute::Flat),
                orderless: attributes.has(Attribute::Orderless),
                one_identity: attributes.has(Attribute::OneIdentity),
            })?;
        }
        Ok(flags)
    }
}
