//! What a token does where an operand is wanted, and what it does behind one.
ghost use Rattle.std.specs.Prelude.{◌≡◌, IfOk, [], ◌∷◌};
ghost use Rattle.wl_syntax.specs.Machine as spec;
ghost use Rattle.wl_syntax.specs.Moves.{Moves, OfOpen, EmitsAs, at_wants};
ghost use Rattle.wl_syntax.specs.Polish.{atom_of, token_of, leaf_node};
ghost use Rattle.wl_syntax.specs.RoleOf.{role_of};
ghost use Rattle.wl_syntax.specs.declared.machine.Standing.TheVariants as standing;

use super::{Entry, Machine, Standing};
use crate::operator::{
    END_LEVEL, Infix, SEMI_LEVEL, SQUARE_LEVEL, SignRole, infix_level, postfix_level, prefix_of,
    role,
};
use crate::token::{Atom, Node, Token};
use std::alloc::AllocError;

impl<'a> Machine<'a> {
    fn names_wanted(&self) -> bool
        ensures { OfOpen self.now.pending.items result spec.names_wanted }
    {
        let Some(top) = self.top() else {
            return false;
        };
        match top {
            Entry::Infix(operator) => match operator {
                Infix::Message => true,
                _ => false,
            },
            _ => false,
        }
    }

    fn put_leaf(&mut self, atom: Atom<'a>) -> Result<(), AllocError>
        ensures { IfOk result (λ _. EmitsAs self.old self.new (leaf_node (atom_of atom.entry) ∷ []) standing.Has) }
    {
        self.out.push(Node::Leaf(atom))?;
        self.standing = Standing::Has;
        Ok(())
    }

    /// A token where any operand may begin.
    fn start_any(&mut self, token: Token<'a>) -> Result<(), AllocError>
        requires { self.old.standing ≡ standing.Wants }
        ensures { IfOk result (λ _. Moves self.old self.new (at_wants (λ s. spec.start_any s (token_of token.entry)))) }
    {
        match token {
            Token::Atom(atom) => self.put_leaf(atom)?,
            Token::Sign(sign) => match prefix_of(sign) {
                Some(operator) => self.pending.push(Entry::Prefix(operator))?,
                None => self.standing = Standing::Dead,
            },
            Token::OpenRound => self.pending.push(Entry::Round)?,
            Token::OpenBrace => self.start_list()?,
            Token::OpenSquare => self.second_square()?,
            Token::CloseSquare => self.empty_square()?,
            Token::CloseBrace => self.empty_brace()?,
            Token::CloseRound => self.standing = Standing::Dead,
            Token::Comma => self.standing = Standing::Dead,
        }
        Ok(())
    }

    /// A token behind a `::`.
    fn start_name(&mut self, token: Token<'a>) -> Result<(), AllocError>
        requires { self.old.standing ≡ standing.Wants }
        ensures { IfOk result (λ _. Moves self.old self.new (at_wants (λ s. spec.start_name s (token_of token.entry)))) }
    {
        let Token::Atom(atom) = token else {
            self.standing = Standing::Dead;
            return Ok(());
        };
        match atom {
            Atom::Name(_) => self.put_leaf(atom)?,
            Atom::Text(_) => self.put_leaf(atom)?,
            _ => self.standing = Standing::Dead,
        }
        Ok(())
    }

    pub(super) fn start(&mut self, token: Token<'a>) -> Result<(), AllocError>
        ensures { IfOk result (λ _. Moves self.old self.new (λ st. spec.started st (token_of token.entry))) }
    {
        let Standing::Wants = self.standing else {
            self.standing = Standing::Dead;
            return Ok(());
        };
        if self.names_wanted() {
            self.start_name(token)?;
        } else {
            self.start_any(token)?;
        }
        Ok(())
    }

    /// A token behind an operand that begins another: a juxtaposition.
    fn start_beside(&mut self, token: Token<'a>) -> Result<(), AllocError>
        requires { self.old.standing ≡ standing.Has }
        ensures { IfOk result (λ _. Moves self.old self.new (spec.beside (token_of token.entry))) }
    {
        self.close(infix_level(Infix::Beside))?;
        self.join(Infix::Beside)?;
        self.start(token)?;
        Ok(())
    }

    /// A sign behind an operand.
    fn go_on_sign(&mut self, role: SignRole) -> Result<(), AllocError>
        requires { self.old.standing ≡ standing.Has }
        ensures { IfOk result (λ _. Moves self.old self.new (spec.behind (role_of role))) }
    {
        match role {
            SignRole::Joins(operator) => {
                self.close(infix_level(operator))?;
                self.join(operator)?;
            }
            SignRole::Ends(operator) => {
                self.close(postfix_level(operator))?;
                self.end_with(operator)?;
            }
            SignRole::Parts => {
                self.close(SEMI_LEVEL)?;
                self.part_with();
            }
            SignRole::Nothing => self.standing = Standing::Dead,
        }
        Ok(())
    }

    /// A token behind an operand.
    pub(super) fn go_on(&mut self, token: Token<'a>) -> Result<(), AllocError>
        requires { self.old.standing ≡ standing.Has }
        ensures { IfOk result (λ _. Moves self.old self.new (λ st. spec.step st (token_of token.entry))) }
    {
        match token {
            Token::Sign(sign) => self.go_on_sign(role(sign))?,
            Token::OpenSquare => {
                self.close(SQUARE_LEVEL)?;
                self.open_square()?;
            }
            Token::CloseRound => {
                self.close(END_LEVEL)?;
                self.close_round()?;
            }
            Token::CloseSquare => {
                self.close(END_LEVEL)?;
                self.close_square()?;
            }
            Token::CloseBrace => {
                self.close(END_LEVEL)?;
                self.close_brace()?;
            }
            Token::Comma => {
                self.close(END_LEVEL)?;
                self.next_element()?;
            }
            Token::Atom(_) => self.start_beside(token)?,
            Token::OpenRound => self.start_beside(token)?,
            Token::OpenBrace => self.start_beside(token)?,
        }
        Ok(())
    }
}
