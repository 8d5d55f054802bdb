//! Evaluations, and their turns one after the other.
ghost use Rattle.std.specs.Prelude.{◌≡◌};
ghost use Rattle.wl_state.specs.Played.{is_leaf};

use wl_expr::{Expr, Look};

/// Whether the expression is a number or a text.
pub fn is_leaf(e: &Expr) -> bool
    ensures { result ≡ is_leaf e.now }
{
    match e.view() {
        Look::Num(_) => true,
        Look::Text(_) => true,
        Look::Symbol(_) => false,
        Look::Node(_, _) => false,
    }
}
