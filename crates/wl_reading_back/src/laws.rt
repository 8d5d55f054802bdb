//! Laws of printing and reading, each the contract of a function without parameters.
ghost use Rattle.wl_reading_back.specs.Law.{PrintedIsRight, HasOneTree, ReadsAgain, ParsesBack};

/// What is printed is a right tree.
pub fn printed_is_right()
    ensures { PrintedIsRight }
{}

/// The text is cut into the tokens of that tree.
pub fn has_one_tree()
    ensures { HasOneTree }
{}

/// The text is read as the expression, its fractions spelled out.
pub fn reads_again()
    ensures { ReadsAgain }
{}

/// What the parser answers on the text.
pub fn parses_back()
    ensures { ParsesBack }
{}
