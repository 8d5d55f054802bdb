//! The InputForm.
ghost use Rattle.std.specs.Prelude.{◌≡◌, IfOk, string_bytes};
ghost use Rattle.wl_expr.specs.Stamped.{plain};
ghost use Rattle.wl_form.specs.Texts.{input_text};

use crate::page::Page;
use crate::writer::write;
use std::alloc::Global;
use wl_expr::Expr;
use wl_ports::Memory;

/// The InputForm.
pub fn input_form(alloc: Global, e: &Expr) -> Result<String, Memory>
    ensures { IfOk result (λ s. string_bytes s ≡ input_text (plain e.now)) }
{
    let mut page = Page::for_text(alloc);
    write(alloc, &mut page, e, 31)?;
    Ok(page.into_text())
}
