//! The operators of the machine: which of the open ones an operator closes, and where one may stand.
ghost use Rattle.std.specs.Prelude.{◌≡◌, ◌&&◌, IfOk};
ghost use Rattle.wl_syntax.specs.Machine as spec;
ghost use Rattle.wl_syntax.specs.Flat.{nodes, node_defines, node_names};
ghost use Rattle.wl_syntax.specs.Moves.{Moves, Closes, OfOperand, OfOpen};
ghost use Rattle.wl_syntax.specs.Polish.{node_of};
ghost use Rattle.wl_syntax.specs.declared.machine.Standing.TheVariants as standing;

use super::{Entry, Machine, Standing};
use crate::operator::{Infix, Postfix, infix_level, leaves, prefix_level, takes};
use crate::token::{Atom, Node};
use std::alloc::AllocError;

/// Whether a tree with this root is a definition.
fn defines(root: Node<'_>) -> bool
    ensures { result ≡ node_defines (node_of root.entry) }
{
    match root {
        Node::Between(operator) => match operator {
            Infix::Set => true,
            Infix::SetDelayed => true,
            _ => false,
        },
        Node::After(operator) => match operator {
            Postfix::Unset => true,
            _ => false,
        },
        _ => false,
    }
}

/// Whether a tree with this root is a name.
fn names(root: Node<'_>) -> bool
    ensures { result ≡ node_names (node_of root.entry) }
{
    match root {
        Node::Leaf(atom) => match atom {
            Atom::Name(_) => true,
            _ => false,
        },
        _ => false,
    }
}

#[tactic(auto, unfolding(crate::specs::Machine::tag_bars))]
fn tag_bars(operator: Infix) -> bool
    ensures { result ≡ spec.tag_bars operator }
{
    match operator {
        Infix::UpSet => true,
        Infix::UpSetDelayed => true,
        Infix::Tag => true,
        _ => false,
    }
}

impl<'a> Machine<'a> {
    fn fits_left(&self, operator: Infix) -> bool
        ensures { OfOperand (nodes self.now.out.items) result (spec.fits_left operator) }
    {
        match operator {
            Infix::Message => match self.root() {
                Some(root) => names(root),
                None => false,
            },
            _ => true,
        }
    }

    fn fits_right(&self, operator: Infix) -> bool
        ensures { OfOperand (nodes self.now.out.items) result (spec.fits_right operator) }
    {
        match operator {
            Infix::Tag => match self.root() {
                Some(root) => defines(root),
                None => false,
            },
            _ => true,
        }
    }

    fn on_tag(&self) -> bool
        ensures { OfOpen self.now.pending.items result spec.on_tag }
    {
        let Some(top) = self.top() else {
            return false;
        };
        match top {
            Entry::Infix(operator) => match operator {
                Infix::Tag => true,
                _ => false,
            },
            _ => false,
        }
    }

    /// Whether the innermost open operator is a `/:` on which this one may not stand.
    fn is_barred(&self, operator: Infix) -> bool
        ensures { OfOpen self.now.pending.items result (λ s. spec.on_tag s && spec.tag_bars operator) }
    {
        self.on_tag() && tag_bars(operator)
    }

    /// Closes the innermost open operator where one of this level does.
    fn close_top(&mut self, level: u8) -> Result<bool, AllocError>
        requires { self.old.standing ≡ standing.Has }
        ensures { Closes self.old self.new level result }
    {
        let Some(top) = self.pop_entry() else {
            return Ok(false);
        };
        match top {
            Entry::Infix(operator) => {
                let inner = infix_level(operator);
                if takes(level, inner) {
                    if !self.fits_right(operator) {
                        self.standing = Standing::Dead;
                        return Ok(false);
                    }
                    self.out.push(Node::Between(operator))?;
                    return Ok(true);
                }
                if leaves(inner, level) {
                    self.pending.push(top)?;
                    return Ok(false);
                }
                self.standing = Standing::Dead;
                Ok(false)
            }
            Entry::Prefix(operator) => {
                let inner = prefix_level(operator);
                if takes(level, inner) {
                    self.out.push(Node::Before(operator))?;
                    return Ok(true);
                }
                if leaves(inner, level) {
                    self.pending.push(top)?;
                    return Ok(false);
                }
                self.standing = Standing::Dead;
                Ok(false)
            }
            _ => {
                self.pending.push(top)?;
                Ok(false)
            }
        }
    }

    /// Closes all that an operator of this level takes into its left child.
    pub(super) fn close(&mut self, level: u8) -> Result<(), AllocError>
        requires { self.old.standing ≡ standing.Has }
        ensures { IfOk result (λ _. Moves self.old self.new (spec.closed level)) }
    {
        while self.close_top(level)? {}
        Ok(())
    }

    pub(super) fn join(&mut self, operator: Infix) -> Result<(), AllocError>
        ensures { IfOk result (λ _. Moves self.old self.new (spec.join operator)) }
    {
        let Standing::Has = self.standing else {
            self.standing = Standing::Dead;
            return Ok(());
        };
        if self.is_barred(operator) {
            self.standing = Standing::Dead;
            return Ok(());
        }
        if !self.fits_left(operator) {
            self.standing = Standing::Dead;
            return Ok(());
        }
        self.pending.push(Entry::Infix(operator))?;
        self.standing = Standing::Wants;
        Ok(())
    }

    pub(super) fn end_with(&mut self, operator: Postfix) -> Result<(), AllocError>
        ensures { IfOk result (λ _. Moves self.old self.new (spec.end_with operator)) }
    {
        match self.standing {
            Standing::Has => self.out.push(Node::After(operator))?,
            _ => self.standing = Standing::Dead,
        }
        Ok(())
    }

    pub(super) fn part_with(&mut self)
        ensures { Moves self.old self.new spec.part_with }
    {
        match self.standing {
            Standing::Has => self.standing = Standing::Semi,
            _ => self.standing = Standing::Dead,
        }
    }
}
