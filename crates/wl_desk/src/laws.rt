//! Laws of messages, each the contract of a function without parameters.
ghost use Rattle.wl_desk.specs.Laws.{FullNamesTell, WorkedDesks};

/// What a few messages show.
pub fn worked_desks()
    ensures { WorkedDesks }
{}

/// Which message has a full name.
pub fn full_names_tell()
    ensures { FullNamesTell }
{}
