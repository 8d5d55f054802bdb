//! Questions of one element.
ghost use Rattle.std.specs.Prelude.{◌≡◌, List};
ghost use Rattle.wl_algebra.specs.Answers.{IsAnswer, IsPassed, trees};
ghost use Rattle.wl_algebra.specs.Kinds.{question_by};
ghost use Rattle.wl_algebra.specs.Questions.{question, is_even, is_odd};
ghost use Rattle.wl_expr.specs.Stamped.{Stamped, plain};

use crate::answer::{give_truth, stay};
use crate::element::{integer, is_integer, is_list, is_node, is_number, is_symbol, is_text};
use std::alloc::Global;
use wl_expr::{Applied, Expr, ExprFault};

/// What is asked.
#[derive(Clone, Copy)]
pub enum Question {
    Integer,
    Even,
    Odd,
    Number,
    Atom,
    Text,
    List,
    True,
}

fn is_even(e: &Expr) -> bool
    ensures { result ≡ is_even (plain e.now) }
{
    match integer(e) {
        Some(n) => n.num().unsigned_abs() % 2 == 0,
        None => false,
    }
}

fn is_odd(e: &Expr) -> bool
    ensures { result ≡ is_odd (plain e.now) }
{
    match integer(e) {
        Some(n) => n.num().unsigned_abs() % 2 == 1,
        None => false,
    }
}

fn holds(asked: Question, e: &Expr) -> bool
    ensures { result ≡ question_by asked (plain e.now) }
{
    match asked {
        Question::Integer => is_integer(e),
        Question::Even => is_even(e),
        Question::Odd => is_odd(e),
        Question::Number => is_number(e),
        Question::Atom => !is_node(e),
        Question::Text => is_text(e),
        Question::List => is_list(e),
        Question::True => is_symbol(e, "True"),
    }
}

pub(crate) fn question_row(
    alloc: Global,
    asked: Question,
    args: &[Expr],
) -> Result<Applied, ExprFault>
    ensures answer { IsAnswer (question (question_by asked) (trees args.now)) result }
    ensures passed { (ms : List Stamped) → IsPassed ms result }
{
    match args {
        [e] => give_truth(alloc, holds(asked, e)),
        _ => stay(),
    }
}
