//! One level of an expression.
use crate::expr::Expr;
use wl_exact::Num;

/// One level of an expression: a leaf's value, or a node's head and elements.
#[derive(Clone, Copy)]
pub enum Look<'a> {
    Num(Num),
    Text(&'a str),
    Symbol(&'a str),
    Node(&'a Expr, &'a [Expr]),
}
