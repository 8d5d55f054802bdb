//! What is true of every evaluation.
#![tactic(auto)]

ghost use Rattle.wl_laws.specs.Laws.{EvaluationIsTurns, LevelsAgree, ProgramsChain, TurnsAreOneAndMore};
ghost use Rattle.wl_semantics.specs.Local.{Locality};
ghost use Rattle.wl_laws.specs.WorkedCells.{WorkedCells};

/// An evaluation that has no effect, and that the budget doesn't end, goes alike wherever the names that it reads have the
/// same entries and the limits leave room.
pub fn locality()
    ensures { Locality }
{}

/// An evaluation is made of its turns.
pub fn turns()
    ensures evaluation { EvaluationIsTurns }
    ensures more { TurnsAreOneAndMore }
{}

/// A program does what its first part does, and then what follows that.
pub fn programs<A, B>()
    ensures { ProgramsChain A B }
{}

/// The recursion goes by levels, and each that is large enough gives the same.
pub fn levels()
    ensures { LevelsAgree }
{}

/// What a few sessions give.
pub fn worked_cells()
    ensures { WorkedCells }
{}
