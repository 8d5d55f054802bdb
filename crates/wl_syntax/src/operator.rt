//! The operators and their signs, with their levels.
ghost use Rattle.std.specs.Prelude.{◌≡◌};
ghost use Rattle.wl_syntax.specs.Table as table;
ghost use Rattle.wl_syntax.specs.RoleOf.{role_of};

/// Operators between two operands. `Beside` has no sign: it is a juxtaposition.
#[derive(Clone, Copy, Debug, PartialEq, Eq)]
pub enum Infix {
    Message,
    PatternTest,
    Of,
    Map,
    Apply,
    MapApply,
    StringJoin,
    Power,
    Divide,
    Times,
    Beside,
    Plus,
    Minus,
    Equal,
    Unequal,
    Less,
    LessEqual,
    Greater,
    GreaterEqual,
    SameQ,
    UnsameQ,
    And,
    Or,
    Alternatives,
    Colon,
    StringExpression,
    Condition,
    Rule,
    RuleDelayed,
    ReplaceAll,
    ReplaceRepeated,
    AddTo,
    SubtractFrom,
    TimesBy,
    DivideBy,
    Into,
    Set,
    SetDelayed,
    UpSet,
    UpSetDelayed,
    Tag,
    Semi,
}

/// Operators before an operand.
#[derive(Clone, Copy, Debug, PartialEq, Eq)]
pub enum Prefix {
    PreIncrement,
    PreDecrement,
    Negate,
    Not,
}

/// Operators behind an operand, but for a last `;`.
#[derive(Clone, Copy, Debug, PartialEq, Eq)]
pub enum Postfix {
    Increment,
    Decrement,
    Factorial,
    Repeated,
    RepeatedNull,
    Function,
    Unset,
}

/// Signs but for the brackets and the comma. `Unused` stands for those of no operator, as `;;`.
#[derive(Clone, Copy, Debug, PartialEq, Eq)]
pub enum Sign {
    ColonColon,
    Question,
    At,
    SlashAt,
    AtAt,
    AtAtAt,
    LessGreater,
    Caret,
    Slash,
    Star,
    Plus,
    Dash,
    EqualsEquals,
    BangEquals,
    Less,
    LessEquals,
    Greater,
    GreaterEquals,
    EqualsEqualsEquals,
    EqualsBangEquals,
    AmpersandAmpersand,
    BarBar,
    Bar,
    Colon,
    TildeTilde,
    SlashSemicolon,
    DashGreater,
    ColonGreater,
    SlashDot,
    SlashSlashDot,
    PlusEquals,
    DashEquals,
    StarEquals,
    SlashEquals,
    SlashSlash,
    Equals,
    ColonEquals,
    CaretEquals,
    CaretColonEquals,
    SlashColon,
    Semicolon,
    PlusPlus,
    MinusMinus,
    Bang,
    DotDot,
    DotDotDot,
    Ampersand,
    EqualsDot,
    Unused,
}

/// What a sign is behind an operand. `;` parts: the next token says whether it is infix or postfix.
#[derive(Clone, Copy)]
pub enum SignRole {
    Joins(Infix),
    Ends(Postfix),
    Parts,
    Nothing,
}

/// The level of a call and of a part, `f[a]` and `e[[i]]`.
pub(crate) const SQUARE_LEVEL: u8 = 3;

/// The level of both kinds of `;`.
pub(crate) const SEMI_LEVEL: u8 = 30;

/// What ends an element, a bracket or the text is looser than each operator.
pub(crate) const END_LEVEL: u8 = 31;

#[tactic(auto, unfolding(crate::specs::Table::infix_level))]
pub(crate) fn infix_level(operator: Infix) -> u8
    ensures { result ≡ table.infix_level operator }
{
    match operator {
        Infix::Message => 1,
        Infix::PatternTest => 2,
        Infix::Of => 5,
        Infix::Map => 6,
        Infix::Apply => 6,
        Infix::MapApply => 6,
        Infix::StringJoin => 8,
        Infix::Power => 9,
        Infix::Divide => 11,
        Infix::Times => 12,
        Infix::Beside => 12,
        Infix::Plus => 13,
        Infix::Minus => 13,
        Infix::Equal => 14,
        Infix::Unequal => 14,
        Infix::Less => 14,
        Infix::LessEqual => 14,
        Infix::Greater => 14,
        Infix::GreaterEqual => 14,
        Infix::SameQ => 15,
        Infix::UnsameQ => 15,
        Infix::And => 17,
        Infix::Or => 18,
        Infix::Alternatives => 20,
        Infix::Colon => 21,
        Infix::StringExpression => 22,
        Infix::Condition => 23,
        Infix::Rule => 24,
        Infix::RuleDelayed => 24,
        Infix::ReplaceAll => 25,
        Infix::ReplaceRepeated => 25,
        Infix::AddTo => 26,
        Infix::SubtractFrom => 26,
        Infix::TimesBy => 26,
        Infix::DivideBy => 26,
        Infix::Into => 28,
        Infix::Set => 29,
        Infix::SetDelayed => 29,
        Infix::UpSet => 29,
        Infix::UpSetDelayed => 29,
        Infix::Tag => 29,
        Infix::Semi => SEMI_LEVEL,
    }
}

#[tactic(auto, unfolding(crate::specs::Table::prefix_level))]
pub(crate) fn prefix_level(operator: Prefix) -> u8
    ensures { result ≡ table.prefix_level operator }
{
    match operator {
        Prefix::PreIncrement => 4,
        Prefix::PreDecrement => 4,
        Prefix::Negate => 10,
        Prefix::Not => 16,
    }
}

#[tactic(auto, unfolding(crate::specs::Table::postfix_level))]
pub(crate) fn postfix_level(operator: Postfix) -> u8
    ensures { result ≡ table.postfix_level operator }
{
    match operator {
        Postfix::Increment => 4,
        Postfix::Decrement => 4,
        Postfix::Factorial => 7,
        Postfix::Repeated => 19,
        Postfix::RepeatedNull => 19,
        Postfix::Function => 27,
        Postfix::Unset => 29,
    }
}

#[tactic(auto, unfolding(crate::specs::Table::leans_right))]
fn leans_right(level: u8) -> bool
    ensures { result ≡ table.leans_right level }
{
    matches!(level, 4 | 5 | 6 | 9 | 24 | 26 | 29)
}

#[tactic(auto, unfolding(crate::specs::Table::leans_left))]
fn leans_left(level: u8) -> bool
    ensures { result ≡ table.leans_left level }
{
    !leans_right(level) && 2 < level
}

/// Whether an operator of this level may have one of the level `edge` on the right edge of its left child.
#[tactic(auto, unfolding(crate::specs::Table::takes))]
pub(crate) fn takes(level: u8, edge: u8) -> bool
    ensures { result ≡ table.takes level edge }
{
    edge < level || (edge == level && leans_left(level))
}

/// Whether an operator of this level may have one of the level `edge` on the left edge of its right child.
#[tactic(auto, unfolding(crate::specs::Table::leaves))]
pub(crate) fn leaves(level: u8, edge: u8) -> bool
    ensures { result ≡ table.leaves level edge }
{
    edge < level || (edge == level && leans_right(level))
}

#[tactic(auto, unfolding(crate::specs::Table::role))]
pub(crate) fn role(sign: Sign) -> SignRole
    ensures { role_of result ≡ table.role sign }
{
    match sign {
        Sign::ColonColon => SignRole::Joins(Infix::Message),
        Sign::Question => SignRole::Joins(Infix::PatternTest),
        Sign::At => SignRole::Joins(Infix::Of),
        Sign::SlashAt => SignRole::Joins(Infix::Map),
        Sign::AtAt => SignRole::Joins(Infix::Apply),
        Sign::AtAtAt => SignRole::Joins(Infix::MapApply),
        Sign::LessGreater => SignRole::Joins(Infix::StringJoin),
        Sign::Caret => SignRole::Joins(Infix::Power),
        Sign::Slash => SignRole::Joins(Infix::Divide),
        Sign::Star => SignRole::Joins(Infix::Times),
        Sign::Plus => SignRole::Joins(Infix::Plus),
        Sign::Dash => SignRole::Joins(Infix::Minus),
        Sign::EqualsEquals => SignRole::Joins(Infix::Equal),
        Sign::BangEquals => SignRole::Joins(Infix::Unequal),
        Sign::Less => SignRole::Joins(Infix::Less),
        Sign::LessEquals => SignRole::Joins(Infix::LessEqual),
        Sign::Greater => SignRole::Joins(Infix::Greater),
        Sign::GreaterEquals => SignRole::Joins(Infix::GreaterEqual),
        Sign::EqualsEqualsEquals => SignRole::Joins(Infix::SameQ),
        Sign::EqualsBangEquals => SignRole::Joins(Infix::UnsameQ),
        Sign::AmpersandAmpersand => SignRole::Joins(Infix::And),
        Sign::BarBar => SignRole::Joins(Infix::Or),
        Sign::Bar => SignRole::Joins(Infix::Alternatives),
        Sign::Colon => SignRole::Joins(Infix::Colon),
        Sign::TildeTilde => SignRole::Joins(Infix::StringExpression),
        Sign::SlashSemicolon => SignRole::Joins(Infix::Condition),
        Sign::DashGreater => SignRole::Joins(Infix::Rule),
        Sign::ColonGreater => SignRole::Joins(Infix::RuleDelayed),
        Sign::SlashDot => SignRole::Joins(Infix::ReplaceAll),
        Sign::SlashSlashDot => SignRole::Joins(Infix::ReplaceRepeated),
        Sign::PlusEquals => SignRole::Joins(Infix::AddTo),
        Sign::DashEquals => SignRole::Joins(Infix::SubtractFrom),
        Sign::StarEquals => SignRole::Joins(Infix::TimesBy),
        Sign::SlashEquals => SignRole::Joins(Infix::DivideBy),
        Sign::SlashSlash => SignRole::Joins(Infix::Into),
        Sign::Equals => SignRole::Joins(Infix::Set),
        Sign::ColonEquals => SignRole::Joins(Infix::SetDelayed),
        Sign::CaretEquals => SignRole::Joins(Infix::UpSet),
        Sign::CaretColonEquals => SignRole::Joins(Infix::UpSetDelayed),
        Sign::SlashColon => SignRole::Joins(Infix::Tag),
        Sign::Semicolon => SignRole::Parts,
        Sign::PlusPlus => SignRole::Ends(Postfix::Increment),
        Sign::MinusMinus => SignRole::Ends(Postfix::Decrement),
        Sign::Bang => SignRole::Ends(Postfix::Factorial),
        Sign::DotDot => SignRole::Ends(Postfix::Repeated),
        Sign::DotDotDot => SignRole::Ends(Postfix::RepeatedNull),
        Sign::Ampersand => SignRole::Ends(Postfix::Function),
        Sign::EqualsDot => SignRole::Ends(Postfix::Unset),
        Sign::Unused => SignRole::Nothing,
    }
}

#[tactic(auto, unfolding(crate::specs::Table::prefix_of))]
pub(crate) fn prefix_of(sign: Sign) -> Option<Prefix>
    ensures { result ≡ table.prefix_of sign }
{
    match sign {
        Sign::PlusPlus => Some(Prefix::PreIncrement),
        Sign::MinusMinus => Some(Prefix::PreDecrement),
        Sign::Dash => Some(Prefix::Negate),
        Sign::Bang => Some(Prefix::Not),
        _ => None,
    }
}

/// The head of the full form of an operator that has one.
pub(crate) fn infix_name(operator: Infix) -> &'static str
    ensures { result.now ≡ table.infix_name operator }
{
    match operator {
        Infix::Message => "MessageName",
        Infix::PatternTest => "PatternTest",
        Infix::Of => "Prefix",
        Infix::Map => "Map",
        Infix::Apply => "Apply",
        Infix::MapApply => "MapApply",
        Infix::StringJoin => "StringJoin",
        Infix::Power => "Power",
        Infix::Divide => "Divide",
        Infix::Times => "Times",
        Infix::Beside => "Times",
        Infix::Plus => "Plus",
        Infix::Minus => "Plus",
        Infix::Equal => "Equal",
        Infix::Unequal => "Unequal",
        Infix::Less => "Less",
        Infix::LessEqual => "LessEqual",
        Infix::Greater => "Greater",
        Infix::GreaterEqual => "GreaterEqual",
        Infix::SameQ => "SameQ",
        Infix::UnsameQ => "UnsameQ",
        Infix::And => "And",
        Infix::Or => "Or",
        Infix::Alternatives => "Alternatives",
        Infix::Colon => "Optional",
        Infix::StringExpression => "StringExpression",
        Infix::Condition => "Condition",
        Infix::Rule => "Rule",
        Infix::RuleDelayed => "RuleDelayed",
        Infix::ReplaceAll => "ReplaceAll",
        Infix::ReplaceRepeated => "ReplaceRepeated",
        Infix::AddTo => "AddTo",
        Infix::SubtractFrom => "SubtractFrom",
        Infix::TimesBy => "TimesBy",
        Infix::DivideBy => "DivideBy",
        Infix::Into => "Postfix",
        Infix::Set => "Set",
        Infix::SetDelayed => "SetDelayed",
        Infix::UpSet => "UpSet",
        Infix::UpSetDelayed => "UpSetDelayed",
        Infix::Tag => "TagSet",
        Infix::Semi => "CompoundExpression",
    }
}

pub(crate) fn prefix_name(operator: Prefix) -> &'static str
    ensures { result.now ≡ table.prefix_name operator }
{
    match operator {
        Prefix::PreIncrement => "PreIncrement",
        Prefix::PreDecrement => "PreDecrement",
        Prefix::Negate => "Times",
        Prefix::Not => "Not",
    }
}

pub(crate) fn postfix_name(operator: Postfix) -> &'static str
    ensures { result.now ≡ table.postfix_name operator }
{
    match operator {
        Postfix::Increment => "Increment",
        Postfix::Decrement => "Decrement",
        Postfix::Factorial => "Factorial",
        Postfix::Repeated => "Repeated",
        Postfix::RepeatedNull => "RepeatedNull",
        Postfix::Function => "Function",
        Postfix::Unset => "Unset",
    }
}
