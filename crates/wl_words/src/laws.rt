//! Laws of command lines, each the contract of a function without parameters.
ghost use Rattle.wl_words.specs.Laws.{IsSimple, ReadsNoWords, ReadsPlainWord, ReadsTrailingWord, ReadsSteps, ReadsTotal, ReadsForm, ReadsDemo, WorkedSteps, WorkedTotals, WorkedForms, WorkedDemos, WorkedFiles};

/// The command is one of which `clap` states exactly what it reads.
pub fn is_simple()
    ensures { IsSimple }
{}

/// What a command line without options asks for.
pub fn words_without_options()
    ensures none { ReadsNoWords }
    ensures plain { ReadsPlainWord }
    ensures trailing { ReadsTrailingWord }
{}

/// What one option asks for, whatever its text.
pub fn words_of_one_option()
    ensures steps { ReadsSteps }
    ensures total { ReadsTotal }
    ensures form { ReadsForm }
    ensures demo { ReadsDemo }
{}

/// What a few command lines ask for.
pub fn worked_lines()
    ensures steps { WorkedSteps }
    ensures totals { WorkedTotals }
    ensures forms { WorkedForms }
    ensures demos { WorkedDemos }
    ensures files { WorkedFiles }
{}
