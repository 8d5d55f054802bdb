//! The operators that are printed, and what the head of a node says of how it is printed.
ghost use Rattle.std.specs.Prelude.{◌≡◌, ◌+◌, ◌<◌, ◌≤◌, ◌==◌, if◌then◌else◌};
ghost use Rattle.wl_form.specs.Operators as table;
ghost use Rattle.wl_form.specs.Shown.{slot_marks};

/// Operators between two operands.
#[derive(Clone, Copy)]
pub enum Infix {
    Message,
    PatternTest,
    Map,
    Apply,
    StringJoin,
    Power,
    Times,
    Plus,
    Minus,
    Equal,
    Unequal,
    Less,
    LessEqual,
    Greater,
    GreaterEqual,
    SameQ,
    UnsameQ,
    And,
    Or,
    Alternatives,
    Colon,
    StringExpression,
    Condition,
    Rule,
    RuleDelayed,
    ReplaceAll,
    ReplaceRepeated,
    AddTo,
    SubtractFrom,
    TimesBy,
    DivideBy,
    Set,
    SetDelayed,
    UpSet,
    UpSetDelayed,
    Semi,
}

/// Operators before an operand.
#[derive(Clone, Copy)]
pub enum Prefix {
    Negate,
    Not,
}

/// Operators behind an operand.
#[derive(Clone, Copy)]
pub enum Postfix {
    Factorial,
    Repeated,
    RepeatedNull,
    Function,
}

/// One to three `_`.
#[derive(Clone, Copy)]
pub enum Marks {
    One,
    Two,
    Three,
}

/// What the head of a node says of how it is printed: as a list; as a sum; as a product; by an operator between two elements or
/// more, or between exactly two; by one before or behind the only element; as statements, as blanks, as a pattern, a default, a slot
/// of one `#` or two, the name of a message or a part; or as a call.
#[derive(Clone, Copy)]
pub enum Row {
    List,
    Sum,
    Product,
    Chain(Infix),
    Pair(Infix),
    Not,
    Ends(Postfix),
    Statements,
    Blanks(Marks),
    Pattern,
    Optional,
    Slot(bool),
    Message,
    Part,
    Call,
}

pub(crate) fn infix_level(operator: Infix) -> u8
    ensures value { result ≡ table.infix_level operator }
    ensures some { 0 < result }
    ensures most { result ≤ 30 }
{
    match operator {
        Infix::Message => 1,
        Infix::PatternTest => 2,
        Infix::Map => 6,
        Infix::Apply => 6,
        Infix::StringJoin => 8,
        Infix::Power => 9,
        Infix::Times => 12,
        Infix::Plus => 13,
        Infix::Minus => 13,
        Infix::Equal => 14,
        Infix::Unequal => 14,
        Infix::Less => 14,
        Infix::LessEqual => 14,
        Infix::Greater => 14,
        Infix::GreaterEqual => 14,
        Infix::SameQ => 15,
        Infix::UnsameQ => 15,
        Infix::And => 17,
        Infix::Or => 18,
        Infix::Alternatives => 20,
        Infix::Colon => 21,
        Infix::StringExpression => 22,
        Infix::Condition => 23,
        Infix::Rule => 24,
        Infix::RuleDelayed => 24,
        Infix::ReplaceAll => 25,
        Infix::ReplaceRepeated => 25,
        Infix::AddTo => 26,
        Infix::SubtractFrom => 26,
        Infix::TimesBy => 26,
        Infix::DivideBy => 26,
        Infix::Set => 29,
        Infix::SetDelayed => 29,
        Infix::UpSet => 29,
        Infix::UpSetDelayed => 29,
        Infix::Semi => 30,
    }
}

pub(crate) fn infix_text(operator: Infix) -> &'static str
    ensures { result.now ≡ table.infix_text operator }
{
    match operator {
        Infix::Message => "::",
        Infix::PatternTest => "?",
        Infix::Map => " /@ ",
        Infix::Apply => " @@ ",
        Infix::StringJoin => " <> ",
        Infix::Power => "^",
        Infix::Times => "*",
        Infix::Plus => " + ",
        Infix::Minus => " - ",
        Infix::Equal => " == ",
        Infix::Unequal => " != ",
        Infix::Less => " < ",
        Infix::LessEqual => " <= ",
        Infix::Greater => " > ",
        Infix::GreaterEqual => " >= ",
        Infix::SameQ => " === ",
        Infix::UnsameQ => " =!= ",
        Infix::And => " && ",
        Infix::Or => " || ",
        Infix::Alternatives => " | ",
        Infix::Colon => ":",
        Infix::StringExpression => " ~~ ",
        Infix::Condition => " /; ",
        Infix::Rule => " -> ",
        Infix::RuleDelayed => " :> ",
        Infix::ReplaceAll => " /. ",
        Infix::ReplaceRepeated => " //. ",
        Infix::AddTo => " += ",
        Infix::SubtractFrom => " -= ",
        Infix::TimesBy => " *= ",
        Infix::DivideBy => " /= ",
        Infix::Set => " = ",
        Infix::SetDelayed => " := ",
        Infix::UpSet => " ^= ",
        Infix::UpSetDelayed => " ^:= ",
        Infix::Semi => "; ",
    }
}

pub(crate) fn postfix_level(operator: Postfix) -> u8
    ensures value { result ≡ table.postfix_level operator }
    ensures some { 0 < result }
{
    match operator {
        Postfix::Factorial => 7,
        Postfix::Repeated => 19,
        Postfix::RepeatedNull => 19,
        Postfix::Function => 27,
    }
}

pub(crate) fn postfix_text(operator: Postfix) -> &'static str
    ensures { result.now ≡ table.postfix_text operator }
{
    match operator {
        Postfix::Factorial => "!",
        Postfix::Repeated => "..",
        Postfix::RepeatedNull => "...",
        Postfix::Function => " &",
    }
}

pub(crate) fn prefix_level(operator: Prefix) -> u8
    ensures value { result ≡ table.prefix_level operator }
    ensures some { 0 < result }
{
    match operator {
        Prefix::Negate => 10,
        Prefix::Not => 16,
    }
}

pub(crate) fn prefix_text(operator: Prefix) -> &'static str
    ensures { result.now ≡ table.prefix_text operator }
{
    match operator {
        Prefix::Negate => "-",
        Prefix::Not => "!",
    }
}

pub(crate) fn marks_text(marks: Marks) -> &'static str
    ensures { result.now ≡ table.marks_text marks }
{
    match marks {
        Marks::One => "_",
        Marks::Two => "__",
        Marks::Three => "___",
    }
}

pub(crate) fn slot_marks(double: bool) -> &'static str
    ensures { result.now ≡ slot_marks double }
{
    if double { "##" } else { "#" }
}

/// Whether the right operand of an operator of this level may have the level itself.
fn takes_equal(level: u8) -> bool
    ensures { result ≡ table.takes_equal level }
{
    level == 9 || (level == 24 || (level == 26 || level == 29))
}

/// The level as operand of which a right operand stands.
pub(crate) fn right_level(operator: Infix) -> u8
    ensures value { result ≡ (if table.takes_equal (table.infix_level operator) then table.infix_level operator + 1 else table.infix_level operator) }
    ensures some { 0 < result }
{
    let level = infix_level(operator);
    if takes_equal(level) { level + 1 } else { level }
}
