//! `Max` and `Min`.
ghost use Rattle.std.specs.Prelude.{◌≡◌, List};
ghost use Rattle.wl_algebra.specs.Answers.{IsAnswer, IsPassed, trees};
ghost use Rattle.wl_algebra.specs.Extremes.{best_of};
ghost use Rattle.wl_algebra.specs.Spliced.{spliced, spliced_in, spliced_lists};
ghost use Rattle.wl_algebra.specs.Standings.{answer_of, better_by, with_tree, with_trees};
ghost use Rattle.wl_exact.specs.Fraction.{Fraction};
ghost use Rattle.wl_expr.specs.Stamped.{Stamped, from_list, plain, plains};

use crate::answer::{give_number, stay};
use crate::element::{is_symbol, number};
use std::alloc::Global;
use wl_exact::Num;
use wl_expr::{Applied, Expr, ExprFault, Look};

/// Which end of the numbers is wanted.
#[derive(Clone, Copy)]
pub enum Extreme {
    Greatest,
    Least,
}

/// What the elements so far come to.
#[derive(Clone, Copy)]
pub(crate) enum Best {
    /// There were none.
    Nothing,
    /// All were numbers, of which this is the best.
    Number(Num),
    /// One was no number.
    Other,
}

fn better(extreme: Extreme, a: &Num, b: &Num) -> Num
    ensures { result ≡ better_by extreme a.now b.now }
{
    let order = match extreme {
        Extreme::Greatest => a.cmp(b),
        Extreme::Least => b.cmp(a),
    };
    if order.is_lt() { *b } else { *a }
}

/// What comes of one element more that is no list.
fn with_element(extreme: Extreme, best: Best, e: &Expr) -> Best
    ensures { result ≡ with_tree (better_by extreme) best (plain e.now) }
{
    let Some(n) = number(e) else {
        return Best::Other;
    };
    match best {
        Best::Nothing => Best::Number(n),
        Best::Number(m) => Best::Number(better(extreme, &m, &n)),
        Best::Other => Best::Other,
    }
}

/// What comes of one element more, or of a list's elements.
#[cycle(spliced)]
fn with_spliced(extreme: Extreme, best: Best, e: &Expr) -> Best
    ensures { result ≡ with_trees (better_by extreme) best (spliced (plain e.now)) }
{
    match e.view() {
        Look::Node(head, args) if is_symbol(head, "List") => with_all(extreme, best, args),
        _ => with_element(extreme, best, e),
    }
}

#[cycle(spliced)]
#[tactic(auto, using(wl_expr::proofs::Parts::depth_arg, crate::proofs::Splices::taken_on))]
fn with_all(extreme: Extreme, best: Best, args: &[Expr]) -> Best
    ensures { result ≡ with_trees (better_by extreme) best (spliced_in (plains (from_list args.now))) }
{
    let mut best = best;
    for arg in args {
        best = with_spliced(extreme, best, arg);
    }
    best
}

#[tactic(auto, using(crate::proofs::Splices::best_answers))]
pub(crate) fn extreme_row(
    alloc: Global,
    extreme: Extreme,
    args: &[Expr],
) -> Result<Applied, ExprFault>
    ensures answer { IsAnswer (best_of (better_by extreme) (spliced_lists (trees args.now))) result }
    ensures passed { (ms : List Stamped) → IsPassed ms result }
{
    match with_all(extreme, Best::Nothing, args) {
        Best::Number(n) => give_number(alloc, n),
        _ => stay(),
    }
}
