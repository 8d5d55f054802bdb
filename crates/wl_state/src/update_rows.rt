//! The rows that give a symbol a new value made of its old one.
ghost use Rattle.std.specs.Prelude.{◌≡◌, ◌∷◌, [], IfOk, if◌then◌else◌, true};
ghost use Rattle.wl_expr.specs.Stamped.{plain};
ghost use Rattle.wl_expr.specs.Tree.{Tree};
ghost use Rattle.wl_expr.specs.Words.{fits, form};
ghost use Rattle.wl_ports.specs.Name.{IsName};
ghost use Rattle.wl_rules.specs.Stored.{Stored};
ghost use Rattle.wl_state.specs.Honest.{HonestIn};
ghost use Rattle.wl_state.specs.Played.{Makes};
ghost use Rattle.wl_state.specs.Prepared.{one, updated};

use crate::operands::{form, two};
use std::alloc::Global;
use wl_exact::Num;
use wl_expr::{Expr, ExprFault};
use wl_ports::Memory;

/// How the new value is made of the old one and another.
#[derive(Clone, Copy)]
pub enum Update {
    Plus,
    Minus,
    Times,
    Divide,
    Append,
    Prepend,
}

/// The number 1, or -1.
pub fn one(alloc: Global, is_negative: bool) -> Result<Expr, Memory>
    ensures value { IfOk result (λ e. plain e ≡ one is_negative) }
    ensures honest { (a : Stored) → IfOk result (HonestIn a) }
{
    let n = if is_negative { -1 } else { 1 };
    let Some(number) = Num::int(n) else {
        unreachable!()
    };
    Expr::num(alloc, number)
}

/// The node of two elements whose head is the symbol of this short name.
fn of_two(alloc: Global, name: &str, first: &Expr, second: &Expr) -> Result<Expr, ExprFault>
    requires { IsName name.now }
    ensures made { Makes (form name.now (plain first.now ∷ plain second.now ∷ [])) result }
    ensures honest { (a : Stored) → HonestIn a first.now → HonestIn a second.now → IfOk result (HonestIn a) }
{
    let both = [first.copy()?, second.copy()?];
    form(alloc, name, &both)
}

/// The same, where the second element was made.
pub fn of_made(
    alloc: Global,
    name: &str,
    first: &Expr,
    made: Result<Expr, ExprFault>,
) -> Result<Expr, ExprFault>
    requires { IsName name.now }
    ensures made { (t : Tree) → Makes t made → Makes (form name.now (plain first.now ∷ t ∷ [])) result }
    ensures honest { (a : Stored) → HonestIn a first.now → IfOk made (HonestIn a) → IfOk result (HonestIn a) }
{
    match made {
        Ok(second) => of_two(alloc, name, first, &second),
        Err(fault) => Err(fault),
    }
}

/// The new value.
pub fn updated(alloc: Global, update: Update, old: &Expr, by: &Expr) -> Result<Expr, ExprFault>
    ensures made { Makes (updated update (plain old.now) (plain by.now)) result }
    ensures honest { (a : Stored) → HonestIn a old.now → HonestIn a by.now → IfOk result (HonestIn a) }
{
    match update {
        Update::Plus => of_two(alloc, "Plus", old, by),
        Update::Minus => {
            let minus_one = one(alloc, true)?;
            let negative = of_two(alloc, "Times", &minus_one, by);
            of_made(alloc, "Plus", old, negative)
        }
        Update::Times => of_two(alloc, "Times", old, by),
        Update::Divide => {
            let minus_one = one(alloc, true)?;
            let inverse = of_two(alloc, "Power", by, &minus_one);
            of_made(alloc, "Times", old, inverse)
        }
        Update::Append => of_two(alloc, "Append", old, by),
        Update::Prepend => of_two(alloc, "Prepend", old, by),
    }
}

/// Which of the old and the new value is given.
pub fn chosen(keeps_old: bool, old: Expr, new: Expr) -> Expr
    ensures same { result ≡ (if keeps_old then old else new) }
    ensures fits { fits (plain result) ≡ true }
{
    let given = if keeps_old { old } else { new };
    // That it is within the limits is a clause of `weight`.
    let _weight = given.weight();
    given
}
