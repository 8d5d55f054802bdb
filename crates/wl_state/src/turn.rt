//! A turn of a symbol and of a node.
ghost use Rattle.std.specs.Prelude.{◌≡◌, ◌<◌, IfOk, if◌then◌else◌};
ghost use Rattle.wl_state.specs.Parts.{turned_by};
ghost use Rattle.wl_state.specs.Played.{turned};
ghost use Rattle.wl_semantics.specs.Turn as turn;

use crate::ends::Turned;
use wl_expr::Expr;
use wl_ports::Memory;

/// What a turn gives that tried rules on a form, and that ends with this expression where none changes the form.
pub fn turned(
    found: Option<Expr>,
    form: &Expr,
    last: &Expr,
    settled: bool,
) -> Result<Turned, Memory>
    ensures { IfOk result (λ t. t ≡ turned_by form.now last.now settled found) }
{
    let Some(next) = found else {
        return Ok(Turned::Final(last.without_stamp()?, settled));
    };
    if next.same(form) {
        return Ok(Turned::Final(last.without_stamp()?, settled));
    }
    Ok(Turned::Next(next))
}

/// What a turn ends with where no rule changes the form: the first form, where an Unevaluated was taken away.
pub fn final_form<'a>(changed: bool, first: &'a Expr, form: &'a Expr) -> &'a Expr
    ensures { result.now ≡ (if changed then first.now else form.now) }
{
    if changed { first } else { form }
}
