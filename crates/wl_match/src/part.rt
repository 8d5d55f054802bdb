//! The parts of a pattern.
use crate::flags::Flags;
use wl_expr::Expr;

/// How many expressions a blank takes.
#[derive(Clone, Copy)]
pub(crate) enum Number {
    One,
    Some,
    Any,
}

/// One part of a pattern. It names the parts inside it by their places.
#[derive(Drop)]
pub(crate) enum Part {
    Exactly(Expr),
    Blank(Number, Option<Expr>),
    Named(String, usize),
    Applies(Expr, usize),
    Holds(Expr, usize),
    Hold(usize),
    Optional(Option<Expr>, usize),
    Alternatives(Vec<usize>),
    Repeated(Number, usize),
    Except(Expr, Option<usize>),
    Nodes(Flags, Expr, usize, Vec<usize>),
}
