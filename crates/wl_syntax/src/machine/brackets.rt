//! The brackets of the machine: where each opens, goes on with an element, and ends.
ghost use Rattle.std.specs.Prelude.{◌≡◌, IfOk, [], ◌∷◌};
ghost use Rattle.wl_syntax.specs.Machine as spec;
ghost use Rattle.wl_syntax.specs.Moves.{Moves, Emits, EmitsAs, NextIn, at_wants};
ghost use Rattle.wl_syntax.specs.Polish.{element_node, call_node, part_node};
ghost use Rattle.wl_syntax.specs.declared.machine.Standing.TheVariants as standing;

use super::{Entry, Machine, Standing};
use crate::token::Node;
use std::alloc::AllocError;

impl<'a> Machine<'a> {
    pub(super) fn open_square(&mut self) -> Result<(), AllocError>
        ensures { IfOk result (λ _. Moves self.old self.new spec.open_square) }
    {
        match self.standing {
            Standing::Has => {
                self.pending.push(Entry::Call)?;
                self.standing = Standing::Wants;
            }
            _ => self.standing = Standing::Dead,
        }
        Ok(())
    }

    pub(super) fn close_round(&mut self) -> Result<(), AllocError>
        ensures { IfOk result (λ _. Moves self.old self.new spec.close_round) }
    {
        let Some(top) = self.pop_entry() else {
            self.standing = Standing::Dead;
            return Ok(());
        };
        match top {
            Entry::Round => self.out.push(Node::Paren)?,
            _ => self.standing = Standing::Dead,
        }
        Ok(())
    }

    pub(super) fn close_brace(&mut self) -> Result<(), AllocError>
        ensures { IfOk result (λ _. Moves self.old self.new spec.close_brace) }
    {
        let Some(top) = self.pop_entry() else {
            self.standing = Standing::Dead;
            return Ok(());
        };
        match top {
            Entry::Brace => self.end_call()?,
            Entry::BraceMore => self.end_call()?,
            _ => self.standing = Standing::Dead,
        }
        Ok(())
    }

    /// Puts the last element and its call behind the nodes.
    fn end_call(&mut self) -> Result<(), AllocError>
        ensures { IfOk result (λ _. Emits self.old self.new (element_node ∷ call_node ∷ [])) }
    {
        self.out.push(Node::Element)?;
        self.out.push(Node::Call)?;
        Ok(())
    }

    pub(super) fn close_square(&mut self) -> Result<(), AllocError>
        ensures { IfOk result (λ _. Moves self.old self.new spec.close_square) }
    {
        let Some(top) = self.pop_entry() else {
            self.standing = Standing::Dead;
            return Ok(());
        };
        match top {
            Entry::Call => self.end_call()?,
            Entry::CallMore => self.end_call()?,
            Entry::Part => self.end_part()?,
            _ => self.standing = Standing::Dead,
        }
        Ok(())
    }

    /// Puts the last index and its part behind the nodes; the second `]` is still to come.
    fn end_part(&mut self) -> Result<(), AllocError>
        ensures { IfOk result (λ _. EmitsAs self.old self.new (element_node ∷ part_node ∷ []) standing.Shuts) }
    {
        self.out.push(Node::Element)?;
        self.out.push(Node::Part)?;
        self.standing = Standing::Shuts;
        Ok(())
    }

    pub(super) fn next_element(&mut self) -> Result<(), AllocError>
        ensures { IfOk result (λ _. Moves self.old self.new spec.next_element) }
    {
        let Some(top) = self.pop_entry() else {
            self.standing = Standing::Dead;
            return Ok(());
        };
        match top {
            Entry::Call => self.go_on_with(Entry::CallMore)?,
            Entry::CallMore => self.go_on_with(Entry::CallMore)?,
            Entry::Brace => self.go_on_with(Entry::BraceMore)?,
            Entry::BraceMore => self.go_on_with(Entry::BraceMore)?,
            Entry::Part => self.go_on_with(Entry::Part)?,
            _ => self.standing = Standing::Dead,
        }
        Ok(())
    }

    /// An element ended, and the next one is wanted.
    fn go_on_with(&mut self, entry: Entry) -> Result<(), AllocError>
        ensures { IfOk result (λ _. NextIn self.old self.new entry) }
    {
        self.out.push(Node::Element)?;
        self.pending.push(entry)?;
        self.standing = Standing::Wants;
        Ok(())
    }

    /// A bracket without elements ends.
    fn end_empty(&mut self) -> Result<(), AllocError>
        ensures { IfOk result (λ _. EmitsAs self.old self.new (call_node ∷ []) standing.Has) }
    {
        self.out.push(Node::Call)?;
        self.standing = Standing::Has;
        Ok(())
    }

    pub(super) fn empty_square(&mut self) -> Result<(), AllocError>
        requires { self.old.standing ≡ standing.Wants }
        ensures { IfOk result (λ _. Moves self.old self.new (at_wants spec.empty_square)) }
    {
        let Some(top) = self.take_top() else {
            self.standing = Standing::Dead;
            return Ok(());
        };
        match top {
            Entry::Call => self.end_empty()?,
            _ => self.standing = Standing::Dead,
        }
        Ok(())
    }

    pub(super) fn empty_brace(&mut self) -> Result<(), AllocError>
        requires { self.old.standing ≡ standing.Wants }
        ensures { IfOk result (λ _. Moves self.old self.new (at_wants spec.empty_brace)) }
    {
        let Some(top) = self.take_top() else {
            self.standing = Standing::Dead;
            return Ok(());
        };
        match top {
            Entry::Brace => self.end_empty()?,
            _ => self.standing = Standing::Dead,
        }
        Ok(())
    }

    pub(super) fn second_square(&mut self) -> Result<(), AllocError>
        requires { self.old.standing ≡ standing.Wants }
        ensures { IfOk result (λ _. Moves self.old self.new (at_wants spec.second_square)) }
    {
        let Some(top) = self.take_top() else {
            self.standing = Standing::Dead;
            return Ok(());
        };
        match top {
            Entry::Call => self.pending.push(Entry::Part)?,
            _ => self.standing = Standing::Dead,
        }
        Ok(())
    }

    pub(super) fn start_list(&mut self) -> Result<(), AllocError>
        requires { self.old.standing ≡ standing.Wants }
        ensures { IfOk result (λ _. Moves self.old self.new (at_wants spec.brace_opened)) }
    {
        self.out.push(Node::List)?;
        self.pending.push(Entry::Brace)?;
        Ok(())
    }
}
