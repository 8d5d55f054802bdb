//! The machine that reads tokens by precedence. It keeps its open operators and brackets on a list of its own, and the
//! finished nodes, each behind its operands, on another.
ghost use Rattle.std.specs.Prelude.{◌≡◌, IfOk, []};
ghost use Rattle.wl_syntax.specs.Machine as spec;
ghost use Rattle.wl_syntax.specs.Moves.{Holds, Moves, Popped, Taken, IsRoot, IsTop, Finishes};
ghost use Rattle.wl_syntax.specs.Polish.{token_of};
ghost use Rattle.wl_syntax.specs.declared.machine.Standing.TheVariants as standing;

mod brackets;
mod operands;
mod operators;

use crate::operator::{END_LEVEL, Infix, Prefix};
use crate::token::{Node, Token};
use std::alloc::{AllocError, Global};

/// What is open, without its operands. `BraceMore` and `CallMore` have elements already.
#[derive(Clone, Copy)]
pub(crate) enum Entry {
    Infix(Infix),
    Prefix(Prefix),
    Round,
    Brace,
    BraceMore,
    Call,
    CallMore,
    Part,
}

/// An operand is wanted; one stands there; a `;` stands behind one; the first `]` of a part was read; or no list that
/// begins with these tokens has a tree.
#[derive(Clone, Copy)]
pub(crate) enum Standing {
    Wants,
    Has,
    Semi,
    Shuts,
    Dead,
}

#[derive(Drop)]
pub(crate) struct Machine<'a> {
    pub(crate) out: Vec<Node<'a>>,
    pub(crate) pending: Vec<Entry>,
    pub(crate) standing: Standing,
}

#[tactic(auto, unfolding(crate::specs::Machine::ends_element))]
fn ends_element(token: Token<'_>) -> bool
    ensures { result ≡ spec.ends_element (token_of token.entry) }
{
    matches!(
        token,
        Token::CloseRound | Token::CloseSquare | Token::CloseBrace | Token::Comma
    )
}

impl<'a> Machine<'a> {
    #[tactic(auto, unfolding(crate::specs::Flat::out_of, crate::specs::Flat::entries))]
    pub(crate) fn new(alloc: Global) -> Machine<'a>
        ensures { Holds result (spec.wants []) }
    {
        Machine {
            out: Vec::new(alloc),
            pending: Vec::new(alloc),
            standing: Standing::Wants,
        }
    }

    /// The root of the operand that stands there.
    fn root(&self) -> Option<Node<'a>>
        ensures { IsRoot self.now.out.items result }
    {
        self.out.last().copied()
    }

    /// The innermost open entry.
    fn top(&self) -> Option<Entry>
        ensures { IsTop self.now.pending.items result }
    {
        self.pending.last().copied()
    }

    fn take_top(&mut self) -> Option<Entry>
        ensures { Taken self.old self.new result }
    {
        self.pending.pop()
    }

    fn pop_entry(&mut self) -> Option<Entry>
        ensures { Popped self.old self.new result }
    {
        match self.standing {
            Standing::Has => self.pending.pop(),
            _ => None,
        }
    }

    /// The token behind a `;`, which says whether it is infix or postfix.
    fn settle(&mut self, token: Token<'a>) -> Result<(), AllocError>
        requires { self.old.standing ≡ standing.Semi }
        ensures { IfOk result (λ _. Moves self.old self.new (λ st. spec.step st (token_of token.entry))) }
    {
        if ends_element(token) {
            self.out.push(Node::Last)?;
            self.standing = Standing::Has;
            self.go_on(token)?;
        } else {
            self.pending.push(Entry::Infix(Infix::Semi))?;
            self.standing = Standing::Wants;
            self.start(token)?;
        }
        Ok(())
    }

    /// The second `]` of a part.
    fn shut(&mut self, token: Token<'a>)
        requires { self.old.standing ≡ standing.Shuts }
        ensures { Moves self.old self.new (λ st. spec.step st (token_of token.entry)) }
    {
        match token {
            Token::CloseSquare => self.standing = Standing::Has,
            _ => self.standing = Standing::Dead,
        }
    }

    pub(crate) fn step(&mut self, token: Token<'a>) -> Result<(), AllocError>
        ensures { IfOk result (λ _. Moves self.old self.new (λ st. spec.step st (token_of token.entry))) }
    {
        match self.standing {
            Standing::Wants => self.start(token)?,
            Standing::Has => self.go_on(token)?,
            Standing::Semi => self.settle(token)?,
            Standing::Shuts => self.shut(token),
            Standing::Dead => {}
        }
        Ok(())
    }

    fn finish_operand(&mut self) -> Result<bool, AllocError>
        requires { self.old.standing ≡ standing.Has }
        ensures { IfOk result (λ done. Finishes self.old self.new done) }
    {
        self.close(END_LEVEL)?;
        let Standing::Has = self.standing else {
            return Ok(false);
        };
        match self.take_top() {
            None => Ok(true),
            Some(_) => Ok(false),
        }
    }

    /// Ends the text: whether it has a tree, whose nodes are then complete.
    pub(crate) fn finish(&mut self) -> Result<bool, AllocError>
        ensures { IfOk result (λ done. Finishes self.old self.new done) }
    {
        match self.standing {
            Standing::Has => Ok(self.finish_operand()?),
            Standing::Semi => {
                self.out.push(Node::Last)?;
                self.standing = Standing::Has;
                Ok(self.finish_operand()?)
            }
            _ => Ok(false),
        }
    }
}
