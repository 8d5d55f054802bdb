//! A list of rules that is shared until it changes.
ghost use Rattle.std.specs.Prelude.{◌≡◌, ◌≤◌, ◌<◌, [], IfOk, OnOk, OnErr, length, slice_get, take, option_copied};
ghost use Rattle.wl_rules.specs.Edits.{CanEdit, edited};

use crate::kept::Kept;
use crate::rule::Rule;
use std::alloc::Global;
use std::marker::Model;
use std::rc::Rc;
use wl_ports::Memory;

/// One change of a list, at a place.
#[derive(Drop)]
pub(crate) enum Edit {
    Insert(usize, Kept),
    Replace(usize, Kept),
    Remove(usize),
}

/// The rules of one kind, as they were at one moment.
#[derive(Drop)]
pub struct RuleList {
    shared: Option<Rc<Vec<Kept>>>,
}

impl Model for RuleList {
    ghost use Rattle.std.specs.Prelude.{List};
    ghost use Rattle.wl_rules.specs.Codes.{list_code};
    ghost use Rattle.wl_rules.specs.declared.rule.Rule.{Rule};

    ghost Value = { List Rule };

    ghost coded = { list_code };

    ghost use Rattle.wl_rules.specs.RuleListView.{shared_rules};

    ghost view = { shared_rules };
}

impl RuleList {
    pub fn len(&self) -> usize
        ensures { result ≡ length self.now }
    {
        self.kept().len()
    }

    /// The k-th rule, from 0.
    pub fn at(&self, k: usize) -> Option<&Rule>
        ensures { option_copied result ≡ slice_get self.now k }
    {
        match self.kept().get(k) {
            None => None,
            Some(kept) => Some(kept.rule()),
        }
    }

    pub(crate) fn empty() -> RuleList
        ensures { result ≡ [] }
    {
        RuleList { shared: None }
    }

    /// The same list, which later changes of this one don't touch.
    pub(crate) fn share(&self) -> Result<RuleList, Memory>
        ensures { IfOk result (λ l. l ≡ self.now) }
    {
        match &self.shared {
            None => Ok(RuleList { shared: None }),
            Some(rules) => Ok(RuleList {
                shared: Some(rules.clone()?),
            }),
        }
    }

    pub(crate) fn kept(&self) -> &[Kept]
        ensures { result.now ≡ self.now }
    {
        match &self.shared {
            None => &[],
            Some(rules) => rules.as_slice(),
        }
    }

    /// Changes the list in its place, or a copy of it where it is shared.
    pub(crate) fn edit(&mut self, alloc: Global, edit: Edit) -> Result<(), Memory>
        requires { CanEdit edit self.old }
        ensures ok { OnOk result (self.new ≡ edited edit self.old) }
        ensures err { OnErr result (self.new ≡ self.old) }
    {
        match &mut self.shared {
            None => {
                let mut rules = Vec::new(alloc);
                apply(&mut rules, edit)?;
                self.shared = Some(Rc::new(alloc, rules)?);
            }
            Some(shared) => match Rc::get_mut(shared) {
                Some(rules) => apply(rules, edit)?,
                None => {
                    let mut rules = copied(alloc, shared.as_slice())?;
                    apply(&mut rules, edit)?;
                    *shared = Rc::new(alloc, rules)?;
                }
            },
        }
        Ok(())
    }
}

fn apply(rules: &mut Vec<Kept>, edit: Edit) -> Result<(), Memory>
    requires { CanEdit edit rules.old.items }
    ensures ok { OnOk result (rules.new.items ≡ edited edit rules.old.items) }
    ensures err { OnErr result (rules.new.items ≡ rules.old.items) }
{
    match edit {
        Edit::Insert(at, kept) => rules.insert(at, kept)?,
        Edit::Replace(at, kept) => rules[at] = kept,
        Edit::Remove(at) => drop(rules.remove(at)),
    }
    Ok(())
}

fn copied(alloc: Global, rules: &[Kept]) -> Result<Vec<Kept>, Memory>
    ensures { IfOk result (λ v. v.items ≡ rules.now) }
{
    let mut copy = Vec::with_capacity(alloc, rules.len())?;
    for kept in rules {
        copy.push(kept.copy()?)?;
    }
    Ok(copy)
}
