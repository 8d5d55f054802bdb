//! Which rule a core gets.
ghost use Rattle.std.specs.Prelude.{◌≡◌};
ghost use Rattle.wl_assign.specs.Kinds.{target_of, TargetIsName};
ghost use Rattle.wl_assign.specs.Targets.{of_leftmost, target};
ghost use Rattle.wl_expr.specs.Stamped.{plain};
ghost use Rattle.wl_expr.specs.Words.{leftmost};

use crate::kinds::Target;
use wl_expr::{Expr, Look};

/// The sub rule of the symbol that a head begins with.
#[cycle(leftmost)]
fn of_leftmost(head: &Expr) -> Target<'_>
    ensures value { target_of result ≡ of_leftmost (leftmost (plain head.now)) }
    ensures name { TargetIsName result }
{
    match head.view() {
        Look::Symbol(name) => Target::Sub(name),
        Look::Node(head, _) => of_leftmost(head),
        _ => Target::Raw,
    }
}

/// The kind of rule that a core gets, and its symbol.
pub fn target(core: &Expr) -> Target<'_>
    ensures value { target_of result ≡ target (plain core.now) }
    ensures name { TargetIsName result }
{
    match core.view() {
        Look::Symbol(name) => Target::Own(name),
        Look::Node(head, _) => match head.view() {
            Look::Symbol(name) => Target::Down(name),
            _ => of_leftmost(head),
        },
        _ => Target::Raw,
    }
}
