//! How a cell is read: as an expression, or not at all.
ghost use Rattle.std.specs.Prelude.{IfOk};
ghost use Rattle.wl_scan.specs.CellText.{cell_text};
ghost use Rattle.wl_scan.specs.Cells.{IsWithinCell};
ghost use Rattle.wl_session.specs.CellReading.{IsBare, reading_of};
ghost use Rattle.wl_session.specs.Reading.{IsReading};

use crate::fault::LineFault;
use std::alloc::Global;
use wl_expr::Expr;
use wl_ports::Memory;
use wl_scan::Cell;
use wl_syntax::{SyntaxFault, parse};

/// The expression of a cell, which has no stamps, or why the cell is refused.
#[tactic(auto, using(crate::proofs::Bare::unstamped_bare))]
pub(crate) fn read_cell(alloc: Global, cell: Cell<'_>) -> Result<Result<Expr, LineFault>, Memory>
    requires { IsWithinCell (cell_text cell) }
    ensures reads { IfOk result (λ r. IsReading (cell_text cell.entry) (reading_of r)) }
    ensures bare { IfOk result (λ r. IfOk r (λ e. IsBare e)) }
{
    let bytes = match cell {
        Cell::TooLong => return Ok(Err(LineFault::TooLong)),
        Cell::Bytes(bytes) => bytes,
    };
    match parse(alloc, bytes) {
        Ok(input) => Ok(Ok(input)),
        Err(SyntaxFault::Memory) => Err(Memory),
        Err(fault) => Ok(Err(LineFault::Syntax(fault))),
    }
}
