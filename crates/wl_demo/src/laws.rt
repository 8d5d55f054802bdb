//! Laws of the notebook, each the contract of a function without parameters.
ghost use Rattle.wl_demo.specs.Laws.{CellsAreCounted, CellsAreLines, SourceIsShort, WorkedNotebooks, WorkedSummary};

/// The first notebooks.
pub fn worked_notebooks()
    ensures { WorkedNotebooks }
{}

/// The three lines of a run.
pub fn worked_summary()
    ensures { WorkedSummary }
{}

/// How many cells a notebook has.
pub fn cells_are_counted()
    ensures { CellsAreCounted }
{}

/// What stands in a cell: printable characters alone.
pub fn cells_are_lines()
    ensures { CellsAreLines }
{}

/// How long a notebook is.
pub fn source_is_short()
    ensures { SourceIsShort }
{}
