//! What Module and Block do to entries.
ghost use Rattle.std.specs.Prelude.{◌≡◌, [], IfOk, Ok, false, map, reverse, true};
ghost use Rattle.wl_expr.specs.Stamped.{plain};
ghost use Rattle.wl_rules.specs.Stored.{definitions};
ghost use Rattle.wl_semantics.specs.LeftSides.{is_limit, limit_allows};
ghost use Rattle.wl_state.specs.LocalNames.{AreFree, AreHeld, AreLocals, IsFree, IsLocal, IsSymbol, aside, held_in, local_in, locals_in, name_in};
ghost use Rattle.wl_state.specs.Played.{Honest, IsUnprotected, MayHave, Plays, Sound};
ghost use Rattle.wl_semantics.specs.Scoping as scoping;
ghost use Rattle.wl_state.specs.Marks.{at_last_mark};

use crate::evaluator::{Evaluator, Taken};
use crate::locals::{Local, name_of, numbered};
use crate::operands::null;
use crate::refusals::is_limit;
use std::slice;
use wl_assign::limit_allows;
use wl_expr::Expr;
use wl_ports::{Ledger, Memory, Work};
use wl_rules::{Rule, RuleKind};

/// The rules that were taken out of the entry of a name.
#[derive(Drop)]
pub struct Held {
    pub name: Expr,
    pub taken: Taken,
}

/// Whether the limit of this name may have the value.
fn allows(name: &str, value: &Expr) -> bool
    ensures { result ≡ limit_allows name.now (plain value.now) }
{
    match limit_allows(name, value) {
        Some(allows) => allows,
        None => false,
    }
}

impl Evaluator {
    /// Gives a symbol a value.
    fn set_own(&mut self, name: &Expr, value: &Expr) -> Result<(), Memory>
        requires sound { Sound self.old }
        requires symbol { IsSymbol name.now }
        requires unprotected { IsUnprotected (name_in (plain name.now)) self.old }
        requires limits { MayHave (name_in (plain name.now)) (plain value.now) }
        requires name { Honest self.old name.now }
        requires value { Honest self.old value.now }
        ensures played { IfOk result (λ _. Plays (scoping.set_own (name_in (plain name.now)) (plain value.now)) self.old (Ok tt) self.new false) }
        ensures kept { self.new.steps ≡ self.old.steps }
    {
        let rule = Rule {
            left: name.copy()?,
            body: value.copy()?,
        };
        self.put_rule(name_of(name), RuleKind::Own, rule)
    }

    // ---- Module

    /// Gives a variable of a Module its value, unless its name is Protected.
    fn set_numbered<L: Ledger>(
        &mut self,
        name: &Expr,
        value: &Expr,
        work: &mut Work<L>,
    ) -> Result<(), Memory>
        requires sound { Sound self.old }
        requires symbol { IsSymbol name.now }
        requires limits { is_limit (name_in (plain name.now)) ≡ false }
        requires name { Honest self.old name.now }
        requires value { Honest self.old value.now }
        ensures played { IfOk result (λ _. Plays (scoping.set_numbered (name_in (plain name.now)) (plain value.now)) self.old (Ok tt) self.new false) }
        ensures kept { self.new.steps ≡ self.old.steps }
        ensures ticks { at_last_mark work.new ≡ at_last_mark work.old }
    {
        let is_protected = self.is_protected(name_of(name), work)?;
        if is_protected {
            return self.issue("Set", "wrsym", slice::from_ref(name), work);
        }
        self.set_own(name, value)
    }

    /// Gives a variable of the n-th Module its value, where it has one.
    fn set_local<L: Ledger>(
        &mut self,
        n: u64,
        local: &Local,
        work: &mut Work<L>,
    ) -> Result<(), Memory>
        requires sound { Sound self.old }
        requires local { IsLocal self.old.store local.now }
        ensures played { IfOk result (λ _. Plays (scoping.set_local n (local_in local.now)) self.old (Ok tt) self.new false) }
        ensures kept { self.new.steps ≡ self.old.steps }
        ensures ticks { at_last_mark work.new ≡ at_last_mark work.old }
    {
        let Some(value) = &local.value else {
            return Ok(());
        };
        let name = numbered(self.alloc, &local.name, n)?;
        self.set_numbered(&name, value, work)
    }

    /// Gives the variables of the n-th Module their values.
    pub fn set_locals<L: Ledger>(
        &mut self,
        n: u64,
        locals: &[Local],
        work: &mut Work<L>,
    ) -> Result<(), Memory>
        requires sound { Sound self.old }
        requires locals { AreLocals self.old.store locals.now }
        ensures played { IfOk result (λ _. Plays (scoping.set_locals n (locals_in locals.now)) self.old (Ok tt) self.new false) }
        ensures kept { self.new.steps ≡ self.old.steps }
        ensures ticks { at_last_mark work.new ≡ at_last_mark work.old }
    {
        for i in 0..locals.len() {
            self.set_local(n, &locals[i], work)?;
        }
        Ok(())
    }

    // ---- Block

    /// Whether Block takes a name, and the message that tells why not.
    fn may_block<L: Ledger>(&mut self, local: &Local, work: &mut Work<L>) -> Result<bool, Memory>
        requires sound { Sound self.old }
        requires symbol { IsSymbol local.now.name }
        ensures played { IfOk result (λ b. Plays (scoping.may_block (local_in local.now)) self.old (Ok b) self.new false) }
        ensures free { IfOk result (λ b. b ≡ true → IsFree self.new local.now) }
        ensures same { IfOk result (λ _. definitions self.new.store ≡ definitions self.old.store) }
        ensures kept { self.new.steps ≡ self.old.steps }
        ensures ticks { at_last_mark work.new ≡ at_last_mark work.old }
    {
        let name = name_of(&local.name);
        let is_protected = self.is_protected(name, work)?;
        if is_protected {
            self.issue("Set", "wrsym", slice::from_ref(&local.name), work)?;
            return Ok(false);
        }
        if !is_limit(name) {
            return Ok(true);
        }
        let Some(value) = &local.value else {
            let null = null(self.alloc)?;
            self.refuse_limit(name, &local.name, &null, work)?;
            return Ok(false);
        };
        if allows(name, value) {
            return Ok(true);
        }
        self.refuse_limit(name, &local.name, value, work)?;
        Ok(false)
    }

    /// The names that Block takes.
    fn blocked<L: Ledger>(
        &mut self,
        locals: &[Local],
        work: &mut Work<L>,
    ) -> Result<Vec<Local>, Memory>
        requires sound { Sound self.old }
        requires locals { AreLocals self.old.store locals.now }
        ensures played { IfOk result (λ v. Plays (scoping.blocked [] (locals_in locals.now)) self.old (Ok (locals_in v.items)) self.new false) }
        ensures locals { IfOk result (λ v. AreLocals self.new.store v.items) }
        ensures free { IfOk result (λ v. AreFree self.new v.items) }
        ensures kept { self.new.steps ≡ self.old.steps }
        ensures ticks { at_last_mark work.new ≡ at_last_mark work.old }
    {
        let mut others = Vec::new(self.alloc);
        for i in 0..locals.len() {
            let local = &locals[i];
            let may_block = self.may_block(local, work)?;
            if may_block {
                others.push(local.copy()?)?;
            }
        }
        Ok(others)
    }

    /// Takes the rules of the names out.
    fn take_all(&mut self, locals: &[Local]) -> Result<Vec<Held>, Memory>
        requires sound { Sound self.old }
        requires free { AreFree self.old locals.now }
        ensures played { IfOk result (λ v. Plays (scoping.take_all [] (locals_in locals.now)) self.old (Ok (map held_in v.items)) self.new false) }
        ensures held { IfOk result (λ v. AreHeld self.new v.items) }
        ensures free { IfOk result (λ _. AreFree self.new locals.now) }
        ensures kept { self.new.steps ≡ self.old.steps }
    {
        let mut held = Vec::with_capacity(self.alloc, locals.len())?;
        for i in 0..locals.len() {
            let name = locals[i].name.copy()?;
            let taken = self.take_rules(name_of(&name))?;
            held.push(Held { name, taken })?;
        }
        Ok(held)
    }

    /// Gives a name its value, where there is one.
    fn set_given(&mut self, local: &Local) -> Result<(), Memory>
        requires sound { Sound self.old }
        requires local { IsLocal self.old.store local.now }
        requires free { IsFree self.old local.now }
        ensures played { IfOk result (λ _. Plays (scoping.set_given (local_in local.now)) self.old (Ok tt) self.new false) }
        ensures kept { self.new.steps ≡ self.old.steps }
    {
        match &local.value {
            None => Ok(()),
            Some(value) => self.set_own(&local.name, value),
        }
    }

    /// Gives the names their values.
    fn set_all(&mut self, locals: &[Local]) -> Result<(), Memory>
        requires sound { Sound self.old }
        requires locals { AreLocals self.old.store locals.now }
        requires free { AreFree self.old locals.now }
        ensures played { IfOk result (λ _. Plays (scoping.set_all (locals_in locals.now)) self.old (Ok tt) self.new false) }
        ensures kept { self.new.steps ≡ self.old.steps }
    {
        for i in 0..locals.len() {
            self.set_given(&locals[i])?;
        }
        Ok(())
    }

    /// Sets the rules of the names that Block takes aside, and gives them their values.
    pub fn set_aside<L: Ledger>(
        &mut self,
        locals: &[Local],
        work: &mut Work<L>,
    ) -> Result<Vec<Held>, Memory>
        requires sound { Sound self.old }
        requires locals { AreLocals self.old.store locals.now }
        ensures played { IfOk result (λ v. Plays (aside (locals_in locals.now)) self.old (Ok (map held_in v.items)) self.new false) }
        ensures held { IfOk result (λ v. AreHeld self.new v.items) }
        ensures kept { self.new.steps ≡ self.old.steps }
        ensures ticks { at_last_mark work.new ≡ at_last_mark work.old }
    {
        let others = self.blocked(locals, work)?;
        let held = self.take_all(others.as_slice())?;
        self.set_all(others.as_slice())?;
        Ok(held)
    }

    /// Gives the rules back, those that were taken last first. This wants no memory.
    pub fn give_all(&mut self, held: Vec<Held>)
        requires sound { Sound self.old }
        requires held { AreHeld self.old held.items }
        ensures played { Plays (scoping.give_all (reverse (map held_in held.items))) self.old (Ok tt) self.new false }
        ensures kept { self.new.steps ≡ self.old.steps }
    {
        let mut left = held;
        'names: loop {
            let Some(Held { name, taken }) = left.pop() else {
                return;
            };
            self.give_rules(name_of(&name), taken);
        }
    }
}
