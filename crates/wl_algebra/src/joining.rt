//! What is left of a sum or a product: a number, and other elements.
ghost use Rattle.std.specs.Prelude.{◌≡◌, ◌∷◌, IfOk, List};
ghost use Rattle.wl_algebra.specs.Answers.{AllFrom, IsAnswer, IsMade, IsPassed, trees};
ghost use Rattle.wl_algebra.specs.Joining.{alone_or, joined};
ghost use Rattle.wl_expr.specs.Applied.{gives};
ghost use Rattle.wl_expr.specs.Passed.{IsFrom};
ghost use Rattle.wl_expr.specs.Stamped.{Stamped};
ghost use Rattle.wl_expr.specs.Tree.{num};
ghost use Rattle.wl_expr.specs.Words.{form};
ghost use Rattle.wl_ports.specs.Name.{IsName};

use crate::answer::{form, give, give_made, give_number};
use std::alloc::Global;
use wl_exact::Num;
use wl_expr::{Applied, Expr, ExprFault};
use wl_ports::Memory;

/// The number and these elements behind it, which it shares.
fn with_number(alloc: Global, n: Num, others: &[Expr]) -> Result<Vec<Expr>, Memory>
    ensures value { IfOk result (λ v. trees v.items ≡ num n ∷ trees others.now) }
    ensures passed { (ms : List Stamped) → AllFrom ms others.now → IfOk result (λ v. AllFrom ms v.items) }
{
    let mut all = Vec::new(alloc);
    all.push(Expr::num(alloc, n)?)?;
    for other in others {
        all.push(other.copy()?)?;
    }
    Ok(all)
}

/// The node of this name, of a number and these elements.
#[tactic(auto, using(crate::proofs::Faults::memory_makes))]
pub(crate) fn number_form(
    alloc: Global,
    name: &str,
    n: Num,
    others: &[Expr],
) -> Result<Expr, ExprFault>
    requires { IsName name.now }
    ensures made { IsMade (form name.now (num n ∷ trees others.now)) result }
    ensures passed { (ms : List Stamped) → AllFrom ms others.now → IfOk result (IsFrom ms) }
{
    form(alloc, name, with_number(alloc, n, others)?.as_slice())
}

/// The elements under this name, or one that is alone as itself.
#[tactic(auto, using(crate::proofs::Faults::memory_answers))]
fn give_alone_or(alloc: Global, name: &str, left: &[Expr]) -> Result<Applied, ExprFault>
    requires { IsName name.now }
    ensures answer { IsAnswer (gives (alone_or name.now (trees left.now))) result }
    ensures passed { (ms : List Stamped) → AllFrom ms left.now → IsPassed ms result }
{
    match left {
        [only] => give(only.copy()?),
        _ => give_made(form(alloc, name, left)),
    }
}

/// The number first, unless it is neutral and something else is left.
pub(crate) fn give_joined(
    alloc: Global,
    name: &str,
    n: Num,
    neutral: Num,
    left: &[Expr],
) -> Result<Applied, ExprFault>
    requires { IsName name.now }
    ensures answer { IsAnswer (gives (joined name.now n neutral (trees left.now))) result }
    ensures passed { (ms : List Stamped) → AllFrom ms left.now → IsPassed ms result }
{
    match left {
        [] => give_number(alloc, n),
        _ => {
            if n == neutral {
                give_alone_or(alloc, name, left)
            } else {
                give_made(number_form(alloc, name, n, left))
            }
        }
    }
}
