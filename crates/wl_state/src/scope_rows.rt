//! The rows of Module, With and Block.
ghost use Rattle.std.specs.Prelude.{◌≡◌, IfOk, IfSome, option_map};
ghost use Rattle.std.specs.List.{All};
ghost use Rattle.wl_expr.specs.Stamped.{plain};
ghost use Rattle.wl_rules.specs.Stored.{Stored};
ghost use Rattle.wl_state.specs.Honest.{HonestIn};
ghost use Rattle.wl_state.specs.LocalNames.{AreLocals, local, locals_in, scope_parts};
ghost use Rattle.wl_state.specs.Played.{trees};
ghost use Rattle.wl_state.specs.Searching.{needs_values};

use crate::locals::{Local, locals};
use crate::operands::two;
use std::alloc::Global;
use wl_expr::Expr;
use wl_ports::Memory;

/// The local names and the body of the two elements of a scope.
pub fn scope_parts(
    alloc: Global,
    args: &[Expr],
    need_values: bool,
) -> Result<Option<(Vec<Local>, &Expr)>, Memory>
    ensures read { IfOk result (λ o. option_map (λ p. (locals_in p.0.items, plain p.1.now)) o ≡ scope_parts (needs_values need_values) (trees args.now)) }
    ensures honest { (a : Stored) → All (HonestIn a) args.now → IfOk result (λ o. IfSome o (λ p. AreLocals a p.0.items × HonestIn a p.1.now)) }
{
    let Some((first, body)) = two(args) else {
        return Ok(None);
    };
    let Some(locals) = locals(alloc, first, need_values)? else {
        return Ok(None);
    };
    Ok(Some((locals, body)))
}
