//! Tokens as the grammar sees them, and the nodes of trees.
use crate::operator::{Infix, Postfix, Prefix, Sign};

/// An operand of one token, with the token's text.
#[derive(Clone, Copy)]
pub enum Atom<'a> {
    Number(&'a str),
    Name(&'a str),
    Pattern(&'a str),
    Slot(&'a str),
    Out(&'a str),
    Text(&'a str),
}

#[derive(Clone, Copy)]
pub enum Token<'a> {
    Atom(Atom<'a>),
    Sign(Sign),
    OpenRound,
    CloseRound,
    OpenSquare,
    CloseSquare,
    OpenBrace,
    CloseBrace,
    Comma,
}

/// A node of a tree, which stands behind its operands. `List` stands before the elements of `{a, b}`, and each element
/// and index is marked by an `Element` behind it.
#[derive(Clone, Copy)]
pub enum Node<'a> {
    Leaf(Atom<'a>),
    List,
    Paren,
    Element,
    Call,
    Part,
    Before(Prefix),
    After(Postfix),
    Last,
    Between(Infix),
}
