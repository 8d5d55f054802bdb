//! Laws of the grammar, each the contract of a function without parameters.
ghost use Rattle.wl_syntax.specs.Laws.{OneReading, OneAnswer, SmallExpressions, WorkedCells};

/// Two right trees that read as the same tokens are the same tree.
pub fn one_reading()
    ensures { OneReading }
{}

/// A cell has one answer at most, want of memory apart.
pub fn one_answer()
    ensures { OneAnswer }
{}

/// What a few cells are read as.
pub fn worked_cells()
    ensures { WorkedCells }
{}

/// The expression of a cell is within the limits of expressions.
pub fn small_expressions()
    ensures { SmallExpressions }
{}
