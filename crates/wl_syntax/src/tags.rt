//! The open `/:` of each bracket level.
ghost use Rattle.std.specs.Prelude.{◌≡◌, ◌&&◌, IfOk, [], Bool};
ghost use Rattle.wl_syntax.specs.Ending as ending;
ghost use Rattle.wl_syntax.specs.Polish.{token_of};
ghost use Rattle.wl_syntax.specs.Tags as tags;
ghost use Rattle.wl_syntax.specs.Tags.{Past, past_after};
ghost use Rattle.wl_syntax.specs.TagsHold.{TagsHold, OpensLevel, ClosesLevel};

use crate::operator::Sign;
use crate::token::Token;
use std::alloc::{AllocError, Global};

/// What stands behind the last `,` or `;` of a bracket level: no `/:` that waits for a definition; one that no `=`, `:=`
/// or `=.` follows; or one that only a `=.` follows, which is a definition if it is the last token of the level.
#[derive(Clone, Copy)]
pub(crate) enum Tagging {
    Untagged,
    Tagged,
    Dotted,
}

/// A level in which a bracket is open, and whether those outside it are met.
#[derive(Clone, Copy)]
pub(crate) struct Outer {
    pub(crate) tagging: Tagging,
    pub(crate) met: bool,
}

/// The levels, the innermost apart. A level is met where an ending can end it.
#[derive(Drop)]
pub(crate) struct Tags {
    pub(crate) tagging: Tagging,
    pub(crate) dotted_last: bool,
    pub(crate) outer: Vec<Outer>,
    pub(crate) outer_met: bool,
}

#[tactic(auto, unfolding(crate::specs::Tags::is_dot))]
fn is_dot(token: Token<'_>) -> bool
    ensures { result ≡ tags.is_dot (token_of token.entry) }
{
    match token {
        Token::Sign(sign) => match sign {
            Sign::EqualsDot => true,
            _ => false,
        },
        _ => false,
    }
}

#[tactic(auto, unfolding(crate::specs::Ending::sign_tag))]
fn sign_tag(tagging: Tagging, sign: Sign) -> Tagging
    ensures { result ≡ ending.sign_tag tagging sign }
{
    match sign {
        Sign::SlashColon => Tagging::Tagged,
        Sign::Equals => Tagging::Untagged,
        Sign::ColonEquals => Tagging::Untagged,
        Sign::Semicolon => Tagging::Untagged,
        Sign::EqualsDot => match tagging {
            Tagging::Tagged => Tagging::Dotted,
            _ => tagging,
        },
        _ => tagging,
    }
}

fn is_met(tagging: Tagging, dotted_last: bool) -> bool
    ensures { result ≡ tags.is_met dotted_last tagging }
{
    match tagging {
        Tagging::Untagged => true,
        Tagging::Tagged => true,
        Tagging::Dotted => dotted_last,
    }
}

impl Tags {
    pub(crate) fn new(alloc: Global) -> Tags
        ensures { TagsHold result tags.no_past }
    {
        Tags {
            tagging: Tagging::Untagged,
            dotted_last: false,
            outer: Vec::new(alloc),
            outer_met: true,
        }
    }

    /// Whether an ending can end each level.
    pub(crate) fn are_met(&self) -> bool
        ensures { (p : Past) → TagsHold self.now p → result ≡ tags.met_behind p }
    {
        is_met(self.tagging, self.dotted_last) && self.outer_met
    }

    fn open(&mut self) -> Result<(), AllocError>
        ensures { IfOk result (λ _. OpensLevel self.old self.new) }
    {
        self.outer.push(Outer {
            tagging: self.tagging,
            met: self.outer_met,
        })?;
        self.outer_met = is_met(self.tagging, false) && self.outer_met;
        self.tagging = Tagging::Untagged;
        Ok(())
    }

    fn close(&mut self)
        ensures { ClosesLevel self.old self.new }
    {
        match self.outer.pop() {
            Some(outer) => {
                self.tagging = outer.tagging;
                self.outer_met = outer.met;
            }
            None => self.tagging = Tagging::Untagged,
        }
    }

    pub(crate) fn read(&mut self, token: Token<'_>) -> Result<(), AllocError>
        ensures { IfOk result (λ _. (p : Past) → TagsHold self.old p → TagsHold self.new (past_after p (token_of token.entry))) }
    {
        self.dotted_last = is_dot(token);
        match token {
            Token::Sign(sign) => self.tagging = sign_tag(self.tagging, sign),
            Token::Atom(_) => {}
            Token::OpenRound => self.open()?,
            Token::OpenSquare => self.open()?,
            Token::OpenBrace => self.open()?,
            Token::CloseRound => self.close(),
            Token::CloseSquare => self.close(),
            Token::CloseBrace => self.close(),
            Token::Comma => self.tagging = Tagging::Untagged,
        }
        Ok(())
    }
}
