//! Laws of shaping and filling, each the contract of a function without parameters.
ghost use Rattle.wl_shape.specs.Laws.{WorkedFillings, WorkedShapes};
ghost use Rattle.wl_shape.specs.Sizes.{FillIsNoDeeper, ShapeIsNoLarger};

/// What a few nodes are shaped to.
pub fn worked_shapes()
    ensures { WorkedShapes }
{}

/// What stands in a few bodies where names are filled.
pub fn worked_fillings()
    ensures { WorkedFillings }
{}

/// A rebuilt form is neither heavier nor deeper than the node that was shaped.
pub fn shape_is_no_larger()
    ensures { ShapeIsNoLarger }
{}

/// Filling with trees of depth 1 makes no tree deeper.
pub fn fill_is_no_deeper()
    ensures { FillIsNoDeeper }
{}
