//! The core of a left side.
ghost use Rattle.std.specs.Prelude.{◌≡◌, false, List};
ghost use Rattle.wl_assign.specs.Core as definition;
ghost use Rattle.wl_expr.specs.Passed.{IsFrom};
ghost use Rattle.wl_expr.specs.Stamped.{Stamped, plain};

use crate::kinds::Core;
use crate::special::{Special, special_form};
use wl_expr::{Expr, Look};

/// The left side without the `Condition` and the `HoldPattern` around it, and whether there was a `HoldPattern`.
#[cycle(core)]
#[tactic(auto, using(wl_expr::proofs::Parts::depth_arg))]
pub fn core(left: &Expr) -> Core<'_>
    ensures core { plain result.core.now ≡ definition.core (plain left.now) }
    ensures held { result.held ≡ definition.is_held (plain left.now) }
    ensures passed { (ms : List Stamped) → IsFrom ms left.now → IsFrom ms result.core.now }
{
    let Look::Node(head, args) = left.view() else {
        return whole(left);
    };
    let Some((inner, _)) = args.split_first() else {
        return whole(left);
    };
    match special_form(head, args) {
        Special::Condition => core(inner),
        Special::HoldPattern => Core {
            core: core(inner).core,
            held: true,
        },
        _ => whole(left),
    }
}

/// A left side with nothing around its core.
fn whole(core: &Expr) -> Core<'_>
    ensures core { result.core.now ≡ core.now }
    ensures held { result.held ≡ false }
{
    Core { core, held: false }
}
