//! The text of one cell.
ghost use Rattle.std.specs.Prelude.{◌≡◌, ◌++◌, OnOk, string_bytes};
ghost use Rattle.wl_demo.specs.Notebook.{cell_for};

use std::alloc::AllocError;

/// Puts the cell with this number, for which `drawn` was drawn, behind what is there.
pub(crate) fn push_cell(line: &mut String, number: u32, drawn: u32) -> Result<(), AllocError>
    ensures { OnOk result (string_bytes line.new ≡ string_bytes line.old ++ cell_for number drawn) }
{
    let a = drawn % 97;
    let b = drawn / 97 % 97;
    match drawn % 5 {
        0 => write!(line, "Total[Table[i^2, {{i, {a}}}]]"),
        1 => write!(line, "d[{number}] = {{{a}, {b}}}"),
        2 => write!(line, "Sort[{{{b}, {a}, {number}}}]"),
        3 => write!(line, "{{{a}, {b}}} /. {a} -> {number}"),
        _ => write!(line, "{a}.5"),
    }
}
