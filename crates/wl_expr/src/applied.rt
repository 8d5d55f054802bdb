//! What a built-in answers.
use crate::expr::Expr;

/// What a built-in that is applied to its arguments answers.
#[derive(Drop)]
pub enum Applied {
    /// No row fits: the expression stays as it is.
    Unchanged,
    /// The result.
    Gives(Expr),
    /// The result, and a message that comes with it.
    Notice(Notice, Expr),
    /// A message alone: the expression stays as it is.
    Told(Notice),
}

/// A message of a built-in, with the expressions that its text shows.
#[derive(Drop)]
pub enum Notice {
    /// A number left the range.
    Overflow,
    /// A division by 0 was met in this expression.
    Infinite(Expr),
    /// This expression has no value.
    Indeterminate(Expr),
    /// This part of this expression doesn't exist: the index, then the expression.
    NoPart(Expr, Expr),
}
