//! Laws over the definitions, each proved as the contract of a function that does nothing.
ghost use Rattle.wl_scan.specs.Laws.{CellsOfExamples, LiteralsOfExamples, PiecesTellTheCells, TokensAreParts, TokensHaveForms, TokensOfExamples};

/// The cells don't depend on how the bytes were cut into pieces.
pub fn pieces_tell_the_cells()
    ensures { PiecesTellTheCells }
{}

/// Each token lies in the text, at its place.
pub fn tokens_are_parts()
    ensures { TokensAreParts }
{}

/// Each token of a text has the form of its kind: its digits write a number up to 2^127 - 1, and its names are names.
pub fn tokens_have_forms()
    ensures { TokensHaveForms }
{}

/// The cells of a few texts.
pub fn cells_of_examples()
    ensures { CellsOfExamples }
{}

/// The tokens of a few texts.
pub fn tokens_of_examples()
    ensures { TokensOfExamples }
{}

/// The values of a few literals, and the faults of others.
pub fn literals_of_examples()
    ensures { LiteralsOfExamples }
{}
