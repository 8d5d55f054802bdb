//! The definition, computed on worked rows.
ghost use Rattle.wl_algebra.specs.WorkedRows.{WorkedNumbers, WorkedProducts, WorkedSums};

/// Rows of the table have the values that their reference pages give.
pub fn worked_rows()
    ensures sums { WorkedSums }
    ensures products { WorkedProducts }
    ensures numbers { WorkedNumbers }
{}
