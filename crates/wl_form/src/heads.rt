//! How a node is printed, by the name of its head.
ghost use Rattle.std.specs.Prelude.{◌≡◌};
ghost use Rattle.wl_expr.specs.Stamped.{plain};
ghost use Rattle.wl_form.specs.Heads as heads;

use crate::operator::{Infix, Marks, Postfix, Row};
use wl_expr::{Expr, Look};

/// The row of a name.
fn looked_up(name: &str) -> Row
    ensures { result ≡ heads.looked_up heads.heads name.now }
{
    match name {
        "List" => Row::List,
        "Plus" => Row::Sum,
        "Times" => Row::Product,
        "Power" => Row::Pair(Infix::Power),
        "Factorial" => Row::Ends(Postfix::Factorial),
        "Not" => Row::Not,
        "Map" => Row::Pair(Infix::Map),
        "Apply" => Row::Pair(Infix::Apply),
        "StringJoin" => Row::Chain(Infix::StringJoin),
        "SameQ" => Row::Chain(Infix::SameQ),
        "UnsameQ" => Row::Chain(Infix::UnsameQ),
        "And" => Row::Chain(Infix::And),
        "Or" => Row::Chain(Infix::Or),
        "Alternatives" => Row::Chain(Infix::Alternatives),
        "StringExpression" => Row::Chain(Infix::StringExpression),
        "Equal" => Row::Chain(Infix::Equal),
        "Unequal" => Row::Chain(Infix::Unequal),
        "Less" => Row::Chain(Infix::Less),
        "LessEqual" => Row::Chain(Infix::LessEqual),
        "Greater" => Row::Chain(Infix::Greater),
        "GreaterEqual" => Row::Chain(Infix::GreaterEqual),
        "Condition" => Row::Pair(Infix::Condition),
        "Rule" => Row::Pair(Infix::Rule),
        "RuleDelayed" => Row::Pair(Infix::RuleDelayed),
        "ReplaceAll" => Row::Pair(Infix::ReplaceAll),
        "ReplaceRepeated" => Row::Pair(Infix::ReplaceRepeated),
        "AddTo" => Row::Pair(Infix::AddTo),
        "SubtractFrom" => Row::Pair(Infix::SubtractFrom),
        "TimesBy" => Row::Pair(Infix::TimesBy),
        "DivideBy" => Row::Pair(Infix::DivideBy),
        "Set" => Row::Pair(Infix::Set),
        "SetDelayed" => Row::Pair(Infix::SetDelayed),
        "UpSet" => Row::Pair(Infix::UpSet),
        "UpSetDelayed" => Row::Pair(Infix::UpSetDelayed),
        "Function" => Row::Ends(Postfix::Function),
        "CompoundExpression" => Row::Statements,
        "PatternTest" => Row::Pair(Infix::PatternTest),
        "Blank" => Row::Blanks(Marks::One),
        "BlankSequence" => Row::Blanks(Marks::Two),
        "BlankNullSequence" => Row::Blanks(Marks::Three),
        "Optional" => Row::Optional,
        "Pattern" => Row::Pattern,
        "Repeated" => Row::Ends(Postfix::Repeated),
        "RepeatedNull" => Row::Ends(Postfix::RepeatedNull),
        "Slot" => Row::Slot(false),
        "SlotSequence" => Row::Slot(true),
        "MessageName" => Row::Message,
        "Part" => Row::Part,
        _ => Row::Call,
    }
}

#[tactic(auto, unfolding(crate::specs::Heads::row_of))]
pub(crate) fn row_of(head: &Expr) -> Row
    ensures { result ≡ heads.row_of (plain head.now) }
{
    match head.view() {
        Look::Symbol(name) => looked_up(name),
        Look::Num(_) => Row::Call,
        Look::Text(_) => Row::Call,
        Look::Node(_, _) => Row::Call,
    }
}
