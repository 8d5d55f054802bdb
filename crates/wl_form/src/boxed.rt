//! The boxes.
ghost use Rattle.std.specs.Prelude.{◌≡◌, IfOk, Err, List};
ghost use Rattle.wl_expr.specs.Passed.{IsFrom};
ghost use Rattle.wl_expr.specs.Stamped.{Stamped, plain, unstamped};
ghost use Rattle.wl_expr.specs.Tree.{IsWithinLimits};
ghost use Rattle.wl_expr.specs.declared.fault.ExprFault.TheVariants as fault;
ghost use Rattle.wl_form.specs.Boxes.{boxes};

use crate::page::Page;
use crate::writer::write;
use std::alloc::Global;
use wl_expr::{Expr, ExprFault};

/// The boxes: the text as a tree of strings.
pub fn boxes(alloc: Global, e: &Expr) -> Result<Expr, ExprFault>
    ensures ok { IfOk result (λ b. b ≡ unstamped (boxes (plain e.now))) }
    ensures passed { IfOk result (λ b. (ms : List Stamped) → IsFrom ms e.now → IsFrom ms b) }
    ensures fits { IfOk result (λ _. IsWithinLimits (boxes (plain e.now))) }
    ensures large { result ≡ Err fault.Large → ¬ IsWithinLimits (boxes (plain e.now)) }
{
    let mut page = Page::for_boxes(alloc);
    write(alloc, &mut page, e, 31)?;
    match page.into_box() {
        Some(made) => Ok(made),
        None => Err(ExprFault::Large),
    }
}
