//! Laws over the definitions, each the contract of a function without parameters.
ghost use Rattle.wl_lists.specs.Laws.{WorkedRows};

/// What a few rows give.
pub fn worked_rows()
    ensures { WorkedRows }
{}
