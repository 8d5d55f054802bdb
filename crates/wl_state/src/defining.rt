//! What a definition does once its left side stands.
ghost use Rattle.std.specs.Prelude.{◌≡◌, ◌∷◌, [], IfOk, Ok, true, false, codes, Some};
ghost use Rattle.wl_assign.specs.Tags.{tags};
ghost use Rattle.wl_assign.specs.Targets.{target};
ghost use Rattle.wl_expr.specs.Stamped.{plain};
ghost use Rattle.wl_expr.specs.Tree as tree;
ghost use Rattle.wl_expr.specs.Words.{Name};
ghost use Rattle.wl_ports.specs.Name.{IsName};
ghost use Rattle.wl_semantics.specs.Definitions as definitions;
ghost use Rattle.wl_semantics.specs.LeftSides.{is_limit, limit_allows};
ghost use Rattle.wl_state.specs.Operands.{left_side, taken_answer};
ghost use Rattle.wl_state.specs.Played.{Honest, IsUnprotected, Plays, Sound};
ghost use Rattle.wl_state.specs.Prepared.{tagged_by_head, tagged_of};
ghost use Rattle.wl_semantics.specs.Prog as prog;
ghost use Rattle.wl_state.specs.Marks.{at_last_mark};

use crate::applying::leftmost;
use crate::elements::is_symbol;
use crate::evaluator::Evaluator;
use crate::operands::{null, symbol};
use crate::refusals::is_limit;
use std::slice;
use wl_assign::{Target, has_tag, limit_allows, tag_at, target};
use wl_expr::{Expr, Look};
use wl_ports::{Ledger, Memory, Work};
use wl_rules::{Rule, RuleKind};

/// The rule that a tag gets.
#[derive(Clone, Copy)]
pub(crate) enum Tagged {
    OfKind(RuleKind),
    NotFound,
    Raw,
}

/// Whether the definition may set a limit: only `x = v` may, and only to a value that is allowed.
fn sets_limit(immediate: bool, left: &Expr, name: &str, value: &Expr) -> bool
    ensures { result ≡ definitions.sets_limit immediate (plain left.now) name.now (plain value.now) }
{
    immediate && is_symbol(left, name) && limit_allows(name, value).unwrap_or(false)
}

/// The rule that a tag gets from its own head.
fn tagged_by_head(kind: RuleKind, head: &str, name: &str) -> Tagged
    ensures { tagged_of result ≡ tagged_by_head kind head.now name.now }
{
    if name == head {
        Tagged::OfKind(kind)
    } else {
        Tagged::NotFound
    }
}

/// The rule that a name gets as a tag of a core, or where it isn't one from the plain definition.
pub(crate) fn kind_for_tag(name: &str, core: &Expr) -> Tagged
    ensures { tagged_of result ≡ definitions.tagged name.now (plain core.now) }
{
    let is_tag = has_tag(core, name);
    match target(core) {
        Target::Raw => Tagged::Raw,
        _ if is_tag => Tagged::OfKind(RuleKind::Up),
        Target::Own(_) => Tagged::NotFound,
        Target::Down(head) => tagged_by_head(RuleKind::Down, head, name),
        Target::Sub(head) => tagged_by_head(RuleKind::Sub, head, name),
    }
}

impl Evaluator {
    /// Tells that a Protected symbol gets no rule of this kind.
    fn tell_protected<L: Ledger>(
        &mut self,
        kind: RuleKind,
        name: &str,
        core: &Expr,
        work: &mut Work<L>,
    ) -> Result<(), Memory>
        requires name { IsName name.now }
        ensures played { IfOk result (λ _. Plays (definitions.write_message kind name.now (plain core.now)) self.old (Ok tt) self.new false) }
        ensures kept { self.new.steps ≡ self.old.steps }
        ensures ticks { at_last_mark work.new ≡ at_last_mark work.old }
    {
        let subject = symbol(self.alloc, name)?;
        match kind {
            RuleKind::Own => self.issue("Set", "wrsym", slice::from_ref(&subject), work),
            RuleKind::Down => self.tell_write(subject, core, work),
            RuleKind::Up => self.tell_write(subject, core, work),
            RuleKind::Sub => self.tell_write(subject, core, work),
        }
    }

    fn tell_write<L: Ledger>(
        &mut self,
        subject: Expr,
        core: &Expr,
        work: &mut Work<L>,
    ) -> Result<(), Memory>
        ensures played { IfOk result (λ _. Plays (prog.message (codes "Set") (codes "write") (plain subject ∷ plain core.now ∷ []))
            self.old (Ok tt) self.new false) }
        ensures kept { self.new.steps ≡ self.old.steps }
        ensures ticks { at_last_mark work.new ≡ at_last_mark work.old }
    {
        let args = [subject, core.copy()?];
        self.issue("Set", "write", &args, work)
    }

    /// Whether the symbol gets no rule of this kind, of which a message tells then.
    fn forbids<L: Ledger>(
        &mut self,
        kind: RuleKind,
        name: &str,
        core: &Expr,
        value: &Expr,
        allowed: bool,
        work: &mut Work<L>,
    ) -> Result<bool, Memory>
        requires sound { Sound self.old }
        requires name { IsName name.now }
        ensures played { IfOk result (λ b. Plays (definitions.refuses kind name.now (plain core.now) (plain value.now) allowed)
            self.old (Ok b) self.new false) }
        ensures unprotected { IfOk result (λ b. b ≡ false → IsUnprotected name.now self.new) }
        ensures limits { IfOk result (λ b. b ≡ false → is_limit name.now ≡ true → allowed ≡ true) }
        ensures kept { self.new.steps ≡ self.old.steps }
        ensures ticks { at_last_mark work.new ≡ at_last_mark work.old }
    {
        let is_protected = self.is_protected(name, work)?;
        if is_protected {
            self.tell_protected(kind, name, core, work)?;
            return Ok(true);
        }
        if is_limit(name) {
            if !allowed {
                let subject = symbol(self.alloc, name)?;
                self.refuse_limit(name, &subject, value, work)?;
                return Ok(true);
            }
        }
        Ok(false)
    }

    /// Gives the symbol a rule, unless that is refused, and answers whether it is.
    pub(crate) fn defined<L: Ledger>(
        &mut self,
        kind: RuleKind,
        name: &str,
        left: &Expr,
        core: &Expr,
        body: &Expr,
        value: &Expr,
        allowed: bool,
        work: &mut Work<L>,
    ) -> Result<bool, Memory>
        requires sound { Sound self.old }
        requires name { IsName name.now }
        requires left { Honest self.old left.now }
        requires body { Honest self.old body.now }
        requires limits { is_limit name.now ≡ true → allowed ≡ true → limit_allows name.now (plain body.now) ≡ true }
        ensures played { IfOk result (λ b. Plays (definitions.defined kind name.now (left_side (plain left.now) (plain core.now))
            (plain body.now) (plain value.now) allowed) self.old (Ok b) self.new false) }
        ensures kept { self.new.steps ≡ self.old.steps }
        ensures ticks { at_last_mark work.new ≡ at_last_mark work.old }
    {
        let is_refused = self.forbids(kind, name, core, value, allowed, work)?;
        if is_refused {
            return Ok(true);
        }
        let rule = Rule {
            left: left.copy()?,
            body: body.copy()?,
        };
        self.put_rule(name, kind, rule)?;
        Ok(false)
    }

    /// Tells that nothing can be defined for the number or text that a core begins with.
    pub(crate) fn refused_raw<L: Ledger>(
        &mut self,
        core: &Expr,
        work: &mut Work<L>,
    ) -> Result<bool, Memory>
        ensures played { IfOk result (λ b. Plays (definitions.refused_raw (plain core.now)) self.old (Ok b) self.new false) }
        ensures refused { IfOk result (λ b. b ≡ true) }
        ensures kept { self.new.steps ≡ self.old.steps }
        ensures ticks { at_last_mark work.new ≡ at_last_mark work.old }
    {
        let first = leftmost(core);
        self.issue("Set", "setraw", slice::from_ref(first), work)?;
        Ok(true)
    }

    /// Tells that a left side has no such tag.
    pub(crate) fn refused_tag<L: Ledger>(
        &mut self,
        name: &str,
        core: &Expr,
        work: &mut Work<L>,
    ) -> Result<bool, Memory>
        requires { IsName name.now }
        ensures played { IfOk result (λ b. Plays (definitions.refused_tag name.now (plain core.now)) self.old (Ok b) self.new false) }
        ensures refused { IfOk result (λ b. b ≡ true) }
        ensures kept { self.new.steps ≡ self.old.steps }
        ensures ticks { at_last_mark work.new ≡ at_last_mark work.old }
    {
        let subject = symbol(self.alloc, name)?;
        let args = [subject, core.copy()?];
        self.issue("TagSet", "tagnf", &args, work)?;
        Ok(true)
    }

    /// Stores the text of a message, unless that is refused.
    pub fn set_message<L: Ledger>(
        &mut self,
        name: &str,
        tag: &str,
        text: &str,
        value: &Expr,
        work: &mut Work<L>,
    ) -> Result<(), Memory>
        requires sound { Sound self.old }
        requires name { IsName name.now }
        requires value { plain value.now ≡ tree.text text.now }
        ensures played { IfOk result (λ _. Plays (definitions.set_message name.now tag.now text.now) self.old (Ok tt) self.new false) }
        ensures kept { self.new.steps ≡ self.old.steps }
        ensures ticks { at_last_mark work.new ≡ at_last_mark work.old }
    {
        let is_protected = self.is_protected(name, work)?;
        if is_protected {
            let subject = symbol(self.alloc, name)?;
            return self.issue("Set", "wrsym", slice::from_ref(&subject), work);
        }
        if is_limit(name) {
            let subject = symbol(self.alloc, name)?;
            return self.refuse_limit(name, &subject, value, work);
        }
        self.put_message(name, tag, text)
    }

    /// Takes away the rule with this left side, and answers whether it did: not where there is none, or where its definition would be
    /// refused.
    pub(crate) fn taken_away<L: Ledger>(
        &mut self,
        kind: RuleKind,
        name: &str,
        left: &Expr,
        core: &Expr,
        work: &mut Work<L>,
    ) -> Result<bool, Memory>
        requires sound { Sound self.old }
        requires name { IsName name.now }
        ensures played { IfOk result (λ b. Plays (definitions.taken_away kind name.now (left_side (plain left.now) (plain core.now)))
            self.old (Ok (Some (taken_answer b))) self.new false) }
        ensures kept { self.new.steps ≡ self.old.steps }
        ensures ticks { at_last_mark work.new ≡ at_last_mark work.old }
    {
        let null = null(self.alloc)?;
        let is_refused = self.forbids(kind, name, core, &null, false, work)?;
        if is_refused {
            let _looked = self.attributes_of(name, work)?;
            return Ok(false);
        }
        let found = self.remove_rule(name, kind, left, work)?;
        Ok(found)
    }

    /// Gives a left side the rule of its core, and answers whether that is refused.
    pub fn define_target<L: Ledger>(
        &mut self,
        immediate: bool,
        left: &Expr,
        core: &Expr,
        body: &Expr,
        value: &Expr,
        work: &mut Work<L>,
    ) -> Result<bool, Memory>
        requires sound { Sound self.old }
        requires left { Honest self.old left.now }
        requires body { Honest self.old body.now }
        requires unmoved { (x : Name) → plain left.now ≡ tree.symbol x → plain body.now ≡ plain value.now }
        ensures played { IfOk result (λ b. Plays (definitions.define_target immediate (left_side (plain left.now) (plain core.now))
            (plain body.now) (plain value.now) (target (plain core.now))) self.old (Ok b) self.new false) }
        ensures kept { self.new.steps ≡ self.old.steps }
        ensures ticks { at_last_mark work.new ≡ at_last_mark work.old }
    {
        match target(core) {
            Target::Raw => self.refused_raw(core, work),
            Target::Own(name) => {
                let allowed = sets_limit(immediate, left, name, value);
                self.defined(RuleKind::Own, name, left, core, body, value, allowed, work)
            }
            Target::Down(name) => {
                self.defined(RuleKind::Down, name, left, core, body, value, false, work)
            }
            Target::Sub(name) => {
                self.defined(RuleKind::Sub, name, left, core, body, value, false, work)
            }
        }
    }

    /// Gives each tag of a core an up rule, and answers whether one is refused.
    fn define_tags<L: Ledger>(
        &mut self,
        left: &Expr,
        core: &Expr,
        body: &Expr,
        value: &Expr,
        work: &mut Work<L>,
    ) -> Result<bool, Memory>
        requires sound { Sound self.old }
        requires left { Honest self.old left.now }
        requires body { Honest self.old body.now }
        ensures played { IfOk result (λ b. Plays (definitions.define_tags (left_side (plain left.now) (plain core.now)) (plain body.now)
            (plain value.now) false (tags (plain core.now))) self.old (Ok b) self.new false) }
        ensures kept { self.new.steps ≡ self.old.steps }
        ensures ticks { at_last_mark work.new ≡ at_last_mark work.old }
    {
        let Look::Node(_, args) = core.view() else {
            return Ok(false);
        };
        let mut refused = false;
        for k in 0..args.len() {
            let Some(name) = tag_at(core, k as u64) else {
                return Ok(refused);
            };
            let is_refused = self.defined(
                RuleKind::Up,
                name,
                left,
                core,
                body,
                value,
                false,
                work,
            )?;
            refused |= is_refused;
        }
        Ok(refused)
    }

    /// Gives each tag of a core an up rule, unless the core begins with a number or a text, and answers whether one is refused.
    pub fn define_up_target<L: Ledger>(
        &mut self,
        left: &Expr,
        core: &Expr,
        body: &Expr,
        value: &Expr,
        work: &mut Work<L>,
    ) -> Result<bool, Memory>
        requires sound { Sound self.old }
        requires left { Honest self.old left.now }
        requires body { Honest self.old body.now }
        ensures played { IfOk result (λ b. Plays (definitions.define_up_target (left_side (plain left.now) (plain core.now)) (plain body.now)
            (plain value.now) (target (plain core.now))) self.old (Ok b) self.new false) }
        ensures kept { self.new.steps ≡ self.old.steps }
        ensures ticks { at_last_mark work.new ≡ at_last_mark work.old }
    {
        match target(core) {
            Target::Raw => self.refused_raw(core, work),
            Target::Own(_) => self.define_tags(left, core, body, value, work),
            Target::Down(_) => self.define_tags(left, core, body, value, work),
            Target::Sub(_) => self.define_tags(left, core, body, value, work),
        }
    }

    /// Gives a name the rule of its tag, and answers whether that is refused.
    pub fn define_tagged_by<L: Ledger>(
        &mut self,
        name: &str,
        left: &Expr,
        core: &Expr,
        body: &Expr,
        value: &Expr,
        work: &mut Work<L>,
    ) -> Result<bool, Memory>
        requires sound { Sound self.old }
        requires name { IsName name.now }
        requires left { Honest self.old left.now }
        requires body { Honest self.old body.now }
        ensures played { IfOk result (λ b. Plays (definitions.define_tagged_by name.now (left_side (plain left.now) (plain core.now))
            (plain body.now) (plain value.now) (definitions.tagged name.now (plain core.now))) self.old (Ok b) self.new false) }
        ensures kept { self.new.steps ≡ self.old.steps }
        ensures ticks { at_last_mark work.new ≡ at_last_mark work.old }
    {
        match kind_for_tag(name, core) {
            Tagged::Raw => self.refused_raw(core, work),
            Tagged::NotFound => self.refused_tag(name, core, work),
            Tagged::OfKind(kind) => {
                self.defined(kind, name, left, core, body, value, false, work)
            }
        }
    }

    /// Takes the rule of a core away, and answers whether there was one.
    pub fn unset_target<L: Ledger>(
        &mut self,
        left: &Expr,
        core: &Expr,
        work: &mut Work<L>,
    ) -> Result<bool, Memory>
        requires sound { Sound self.old }
        ensures played { IfOk result (λ b. Plays (definitions.unset_target (left_side (plain left.now) (plain core.now))
            (target (plain core.now))) self.old (Ok (Some (taken_answer b))) self.new false) }
        ensures kept { self.new.steps ≡ self.old.steps }
        ensures ticks { at_last_mark work.new ≡ at_last_mark work.old }
    {
        match target(core) {
            Target::Raw => {
                let is_refused = self.refused_raw(core, work)?;
                Ok(!is_refused)
            }
            Target::Own(name) => self.taken_away(RuleKind::Own, name, left, core, work),
            Target::Down(name) => self.taken_away(RuleKind::Down, name, left, core, work),
            Target::Sub(name) => self.taken_away(RuleKind::Sub, name, left, core, work),
        }
    }

    /// Takes the rule of a tag away, and answers whether there was one.
    pub fn unset_tagged<L: Ledger>(
        &mut self,
        name: &str,
        left: &Expr,
        core: &Expr,
        work: &mut Work<L>,
    ) -> Result<bool, Memory>
        requires sound { Sound self.old }
        requires name { IsName name.now }
        ensures played { IfOk result (λ b. Plays (definitions.unset_tagged name.now (left_side (plain left.now) (plain core.now))
            (definitions.tagged name.now (plain core.now))) self.old (Ok (Some (taken_answer b))) self.new false) }
        ensures kept { self.new.steps ≡ self.old.steps }
        ensures ticks { at_last_mark work.new ≡ at_last_mark work.old }
    {
        match kind_for_tag(name, core) {
            Tagged::Raw => {
                let is_refused = self.refused_raw(core, work)?;
                Ok(!is_refused)
            }
            Tagged::NotFound => {
                let is_refused = self.refused_tag(name, core, work)?;
                Ok(!is_refused)
            }
            Tagged::OfKind(kind) => self.taken_away(kind, name, left, core, work),
        }
    }
}
