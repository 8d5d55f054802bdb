//! Laws of left sides, each the contract of a function without parameters.
ghost use Rattle.wl_assign.specs.Laws.{WorkedLeftSides};

/// What a few left sides define, and with which tags.
pub fn worked_left_sides()
    ensures { WorkedLeftSides }
{}
