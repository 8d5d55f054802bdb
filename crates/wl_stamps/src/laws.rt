//! Laws of reads, each the contract of a function without parameters.
ghost use Rattle.wl_stamps.specs.Laws.{NamesStandOnce};

/// A name is noted once.
pub fn names_stand_once()
    ensures { NamesStandOnce }
{}
