//! The name of an iterator, and its values.
ghost use Rattle.std.specs.Prelude.{◌≡◌, ◌&&◌, not, true, false, codes, IfOk, IfSome, Ok, Some, None, option_copied};
ghost use Rattle.wl_control.specs.Iterators.{iterator};
ghost use Rattle.wl_expr.specs.Stamped as stamped;
ghost use Rattle.wl_expr.specs.Stamped.{plain};
ghost use Rattle.wl_expr.specs.Words.{overflow_form};
ghost use Rattle.wl_ports.specs.Name.{IsName};
ghost use Rattle.wl_semantics.specs.Control as control;
ghost use Rattle.wl_semantics.specs.LeftSides.{is_limit, limit_allows};
ghost use Rattle.wl_state.specs.Played.{Honest, IsTaken, IsUnprotected, MayHave, Plays, Sound, trees};
ghost use Rattle.wl_state.specs.Replies.{AreTaken, plain_taken, set_aside};
ghost use Rattle.wl_state.specs.Marks.{at_last_mark};

use crate::elements::is_symbol;
use crate::evaluator::{Evaluator, Taken};
use crate::operands::symbol;
use crate::refusals::is_limit;
use std::alloc::Global;
use std::{mem, slice};
use wl_assign::limit_allows;
use wl_expr::{Expr, Look};
use wl_ports::{Ledger, Memory, Work};
use wl_rules::{Rule, RuleKind};

/// The name that the first iterator of a row gives its values to.
pub fn iterator_name<'a>(name: &str, args: &'a [Expr]) -> Option<&'a str>
    ensures value { option_copied result ≡ control.iterator_name name.now (trees args.now) }
    ensures named { IfSome result (λ x. IsName x.now) }
{
    match name {
        "Do" => iterated_name(args),
        "Table" => iterated_name(args),
        _ => None,
    }
}

/// The name of the iterator behind a body.
fn iterated_name(args: &[Expr]) -> Option<&str>
    ensures value { option_copied result ≡ control.iterated_name (trees args.now) }
    ensures named { IfSome result (λ x. IsName x.now) }
{
    if args.len() < 2 {
        return None;
    }
    named_in(&args[1])
}

/// The name in front of one to three bounds.
fn named_in(e: &Expr) -> Option<&str>
    ensures value { option_copied result ≡ control.named_in (plain e.now) (iterator (plain e.now)) }
    ensures named { IfSome result (λ x. IsName x.now) }
{
    let Look::Node(head, elements) = e.view() else {
        return None;
    };
    if !is_symbol(head, "List") {
        return None;
    }
    if elements.len() < 2 {
        return None;
    }
    if elements.len() > 4 {
        return None;
    }
    match elements[0].view() {
        Look::Symbol(name) => Some(name),
        _ => None,
    }
}

/// Whether the name is that of a limit that can't have this value.
fn limit_refuses(name: &str, value: &Expr) -> bool
    ensures { result ≡ (is_limit name.now && not (limit_allows name.now (plain value.now))) }
{
    if !is_limit(name) {
        return false;
    }
    match limit_allows(name, value) {
        Some(allowed) => !allowed,
        None => true,
    }
}

/// `Overflow[]`.
fn overflow_made(alloc: Global) -> Result<Expr, Memory>
    ensures { IfOk result (λ e. e ≡ stamped.node None (stamped.symbol None (codes "Overflow")) stamped.none) }
{
    let head = symbol(alloc, "Overflow")?;
    match Expr::node(alloc, &head, &[]) {
        Ok(form) => Ok(form),
        // Only memory can be lacking: it is a small expression.
        Err(_) => Err(Memory),
    }
}

impl Evaluator {
    /// `Overflow[]`, with its message.
    pub fn overflow<L: Ledger>(&mut self, work: &mut Work<L>) -> Result<Expr, Memory>
        ensures played { IfOk result (λ e. Plays control.overflow self.old (Ok (Some (plain e))) self.new false) }
        ensures form { IfOk result (λ e. plain e ≡ overflow_form) }
        ensures honest { IfOk result (Honest self.new) }
        ensures kept { self.new.steps ≡ self.old.steps }
        ensures ticks { at_last_mark work.new ≡ at_last_mark work.old }
    {
        self.issue("General", "ovfl", &[], work)?;
        overflow_made(self.alloc)
    }

    /// Whether an iterator's name gets this value. A message tells why not.
    fn may_set<L: Ledger>(
        &mut self,
        name: &str,
        value: &Expr,
        work: &mut Work<L>,
    ) -> Result<bool, Memory>
        requires sound { Sound self.old }
        requires name { IsName name.now }
        ensures played { IfOk result (λ b. Plays (control.may_set name.now (plain value.now)) self.old (Ok b) self.new false) }
        ensures unprotected { IfOk result (λ b. b ≡ true → IsUnprotected name.now self.new) }
        ensures limits { IfOk result (λ b. b ≡ true → MayHave name.now (plain value.now)) }
        ensures kept { self.new.steps ≡ self.old.steps }
        ensures ticks { at_last_mark work.new ≡ at_last_mark work.old }
    {
        let is_protected = self.is_protected(name, work)?;
        if is_protected {
            let subject = symbol(self.alloc, name)?;
            self.issue("Set", "wrsym", slice::from_ref(&subject), work)?;
            return Ok(false);
        }
        let refuses = limit_refuses(name, value);
        if refuses {
            let subject = symbol(self.alloc, name)?;
            self.refuse_limit(name, &subject, value, work)?;
            return Ok(false);
        }
        Ok(true)
    }

    /// The rules of an iterator's name, which are set aside when it gets its first value.
    fn taken_once(&mut self, name: &str, taken: Option<Taken>) -> Result<Taken, Memory>
        requires sound { Sound self.old }
        requires unprotected { IsUnprotected name.now self.old }
        requires taken { AreTaken self.old (Some name.now) taken }
        ensures played { IfOk result (λ t. Plays (control.taken_once name.now (set_aside (Some name.now) taken)) self.old (Ok (plain_taken name.now t)) self.new false) }
        ensures taken { IfOk result (λ t. IsTaken self.new name.now t) }
        ensures unprotected { IfOk result (λ _. IsUnprotected name.now self.new) }
        ensures kept { self.new.steps ≡ self.old.steps }
    {
        match taken {
            Some(taken) => Ok(taken),
            None => self.take_rules(name),
        }
    }

    /// The iterator's name gets this value, unless a message tells why not.
    pub fn set_iterator<L: Ledger>(
        &mut self,
        name: &str,
        value: Expr,
        taken: &mut Option<Taken>,
        work: &mut Work<L>,
    ) -> Result<(), Memory>
        requires sound { Sound self.old }
        requires name { IsName name.now }
        requires honest { Honest self.old value }
        requires taken { AreTaken self.old (Some name.now) taken.old }
        ensures played { IfOk result (λ _. Plays (control.set_iterator (Some name.now) (plain value) (set_aside (Some name.now) taken.old))
            self.old (Ok (set_aside (Some name.now) taken.new)) self.new false) }
        ensures taken { IfOk result (λ _. AreTaken self.new (Some name.now) taken.new) }
        ensures kept { self.new.steps ≡ self.old.steps }
        ensures ticks { at_last_mark work.new ≡ at_last_mark work.old }
    {
        let may = self.may_set(name, &value, work)?;
        if !may {
            return Ok(());
        }
        let before = mem::replace(taken, None);
        let held = self.taken_once(name, before)?;
        *taken = Some(held);
        let left = symbol(self.alloc, name)?;
        self.put_rule(name, RuleKind::Own, Rule { left, body: value })
    }

    /// What was set aside of the entry of the iterator's name comes back.
    pub fn give_back_iterator(&mut self, name: Option<&str>, taken: Option<Taken>)
        requires sound { Sound self.old }
        requires taken { AreTaken self.old (option_copied name) taken }
        ensures played { Plays (control.give_back_taken (set_aside (option_copied name.entry) taken)) self.old (Ok tt) self.new false }
        ensures kept { self.new.steps ≡ self.old.steps }
    {
        let Some(name) = name else {
            return;
        };
        let Some(taken) = taken else {
            return;
        };
        self.give_rules(name, taken);
    }
}
