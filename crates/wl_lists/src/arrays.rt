//! `Array`.
ghost use Rattle.std.specs.Prelude.{◌≡◌, ◌<◌, ◌≤◌, Err, IfOk, List};
ghost use Rattle.wl_expr.specs.Passed.{IsFrom};
ghost use Rattle.wl_expr.specs.Stamped.{Stamped, plain};
ghost use Rattle.wl_expr.specs.Tree.{AreSmall, from_list};
ghost use Rattle.wl_expr.specs.Words.{count_of};
ghost use Rattle.wl_lists.specs.Answers.{AllFrom, IsAnswer, IsMade, IsPassed, trees};
ghost use Rattle.wl_lists.specs.Arrays.{array_row, image_at};
ghost use Rattle.wl_lists.specs.Tabulated.{tabulated};

use crate::answer::{give_list, node, stay, whole};
use crate::element::integer;
use std::alloc::Global;
use std::slice;
use wl_expr::{Applied, Expr, ExprFault};

/// More elements than this are too heavy, since each is a node that weighs 2 or more.
const MOST: u128 = 2_000_000;

/// The integer from 0 up that the expression is.
pub(crate) fn count_of(e: &Expr) -> Option<u128>
    ensures { result ≡ count_of (plain e.now) }
{
    let n = integer(e)?;
    if n < 0 { None } else { Some(n.unsigned_abs()) }
}

/// `f[k]`.
#[tactic(auto, using(crate::proofs::Faults::memory_makes))]
fn image_at(alloc: Global, f: &Expr, k: u128) -> Result<Expr, ExprFault>
    requires { k ≤ 2000000 }
    ensures made { IsMade (image_at (plain f.now) k) result }
    ensures passed { (ms : List Stamped) → IsFrom ms f.now → IfOk result (IsFrom ms) }
{
    let place = Expr::num(alloc, whole(k as i128))?;
    node(alloc, f, slice::from_ref(&place))
}

/// `f[1]`, `f[2]` and so on.
fn images(alloc: Global, f: &Expr, count: u128) -> Result<Vec<Expr>, ExprFault>
    ensures value { IfOk result (λ v. trees v.items ≡ tabulated (image_at (plain f.now)) 1 count) }
    ensures large { result ≡ Err ExprFault.Large → ¬ AreSmall (from_list (tabulated (image_at (plain f.now)) 1 count)) }
    ensures passed { (ms : List Stamped) → IsFrom ms f.now → IfOk result (λ v. AllFrom ms v.items) }
{
    if count > MOST {
        return Err(ExprFault::Large);
    }
    let mut all = Vec::new(alloc);
    for before in 0..count {
        let image = image_at(alloc, f, before + 1)?;
        all.push(image)?;
    }
    Ok(all)
}

pub(crate) fn array_row(alloc: Global, args: &[Expr]) -> Result<Applied, ExprFault>
    ensures answer { IsAnswer (array_row (trees args.now)) result }
    ensures passed { (ms : List Stamped) → AllFrom ms args.now → IsPassed ms result }
{
    let [f, n] = args else {
        return stay();
    };
    match count_of(n) {
        Some(count) => give_list(alloc, images(alloc, f, count)),
        None => stay(),
    }
}
