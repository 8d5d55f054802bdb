//! What is written of the demonstration's run.
ghost use Rattle.std.specs.Prelude.{◌≡◌, IfOk, string_bytes};
ghost use Rattle.wl_demo.specs.Summary.{summary};

use std::alloc::{AllocError, Global};

/// Three lines: how many cells were played, how many of them were refused, and the steps of all.
pub fn summary(alloc: Global, cells: u64, refused: u64, steps: u64) -> Result<String, AllocError>
    ensures { IfOk result (λ text. string_bytes text ≡ summary cells refused steps) }
{
    let mut text = String::new(alloc);
    writeln!(text, "cells {cells}")?;
    writeln!(text, "refused {refused}")?;
    writeln!(text, "steps {steps}")?;
    Ok(text)
}
