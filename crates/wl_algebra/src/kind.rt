//! The table of the rows.
ghost use Rattle.std.specs.Prelude.{◌≡◌, IfOk, List, option_map};
ghost use Rattle.wl_algebra.specs.Answers.{AllFrom, AppliedIsFrom, IsAnswer, IsPassed, IsTooLarge, trees};
ghost use Rattle.wl_algebra.specs.Kinds.{row_by};
ghost use Rattle.wl_algebra.specs.Table.{apply, row_of};
ghost use Rattle.wl_expr.specs.Applied.{plain_applied};
ghost use Rattle.wl_expr.specs.Stamped.{Stamped};

use crate::answer::stay;
use crate::comparisons::{
    Relation, comparison_row, equal_row, inequality_row, not_row, same_row, unequal_row, unsame_row,
};
use crate::extremes::{Extreme, extreme_row};
use crate::factorials::factorial_row;
use crate::numbers::{Measure, gcd_row, modulo_row, number_row, quotient_row, rational_row};
use crate::powers::power_row;
use crate::products::times_row;
use crate::questions::{Question, question_row};
use crate::sums::plus_row;
use std::alloc::Global;
use wl_expr::{Applied, Expr, ExprFault};

/// A row of the table.
#[derive(Clone, Copy)]
pub enum Kind {
    Plus,
    Times,
    Power,
    /// A function of one number.
    Measure(Measure),
    Mod,
    Quotient,
    Rational,
    Gcd,
    Extreme(Extreme),
    Factorial,
    /// A question about one element.
    Question(Question),
    Equal,
    Unequal,
    /// Whether numbers stand so, each to the next.
    Comparison(Relation),
    Inequality,
    SameQ,
    UnsameQ,
    Not,
}

impl Kind {
    /// The row of this name.
    pub fn named(name: &str) -> Option<Kind>
        ensures { option_map row_by result ≡ row_of name.now }
    {
        match name {
            "Plus" => Some(Kind::Plus),
            "Times" => Some(Kind::Times),
            "Power" => Some(Kind::Power),
            "Abs" => Some(Kind::Measure(Measure::Absolute)),
            "Sign" => Some(Kind::Measure(Measure::Sign)),
            "Floor" => Some(Kind::Measure(Measure::Floor)),
            "Ceiling" => Some(Kind::Measure(Measure::Ceiling)),
            "Numerator" => Some(Kind::Measure(Measure::Numerator)),
            "Denominator" => Some(Kind::Measure(Measure::Denominator)),
            "Mod" => Some(Kind::Mod),
            "Quotient" => Some(Kind::Quotient),
            "Rational" => Some(Kind::Rational),
            "GCD" => Some(Kind::Gcd),
            "Max" => Some(Kind::Extreme(Extreme::Greatest)),
            "Min" => Some(Kind::Extreme(Extreme::Least)),
            "Factorial" => Some(Kind::Factorial),
            "IntegerQ" => Some(Kind::Question(Question::Integer)),
            "EvenQ" => Some(Kind::Question(Question::Even)),
            "OddQ" => Some(Kind::Question(Question::Odd)),
            "NumberQ" => Some(Kind::Question(Question::Number)),
            "AtomQ" => Some(Kind::Question(Question::Atom)),
            "StringQ" => Some(Kind::Question(Question::Text)),
            "ListQ" => Some(Kind::Question(Question::List)),
            "TrueQ" => Some(Kind::Question(Question::True)),
            "Equal" => Some(Kind::Equal),
            "Unequal" => Some(Kind::Unequal),
            "Less" => Some(Kind::Comparison(Relation::Less)),
            "LessEqual" => Some(Kind::Comparison(Relation::LessEqual)),
            "Greater" => Some(Kind::Comparison(Relation::Greater)),
            "GreaterEqual" => Some(Kind::Comparison(Relation::GreaterEqual)),
            "Inequality" => Some(Kind::Inequality),
            "SameQ" => Some(Kind::SameQ),
            "UnsameQ" => Some(Kind::UnsameQ),
            "Not" => Some(Kind::Not),
            _ => None,
        }
    }

    /// What the row answers to these elements.
    pub fn apply(self, alloc: Global, args: &[Expr]) -> Result<Applied, ExprFault>
        ensures answer { IfOk result (λ a. plain_applied a ≡ row_by self (trees args.now)) }
        ensures fits { IfOk result (λ _. ¬ IsTooLarge (row_by self (trees args.now))) }
        ensures large { result ≡ Err ExprFault.Large → IsTooLarge (row_by self (trees args.now)) }
        ensures passed { (ms : List Stamped) → AllFrom ms args.now → IfOk result (AppliedIsFrom ms) }
    {
        row(self, alloc, args)
    }
}

/// What a row answers.
fn row(kind: Kind, alloc: Global, args: &[Expr]) -> Result<Applied, ExprFault>
    ensures answer { IsAnswer (row_by kind (trees args.now)) result }
    ensures passed { (ms : List Stamped) → AllFrom ms args.now → IsPassed ms result }
{
    match kind {
        Kind::Plus => plus_row(alloc, args),
        Kind::Times => times_row(alloc, args),
        Kind::Power => power_row(alloc, args),
        Kind::Measure(measure) => number_row(alloc, measure, args),
        Kind::Mod => modulo_row(alloc, args),
        Kind::Quotient => quotient_row(alloc, args),
        Kind::Rational => rational_row(alloc, args),
        Kind::Gcd => gcd_row(alloc, args),
        Kind::Extreme(extreme) => extreme_row(alloc, extreme, args),
        Kind::Factorial => factorial_row(alloc, args),
        Kind::Question(asked) => question_row(alloc, asked, args),
        Kind::Equal => equal_row(alloc, args),
        Kind::Unequal => unequal_row(alloc, args),
        Kind::Comparison(relation) => comparison_row(alloc, relation, args),
        Kind::Inequality => inequality_row(alloc, args),
        Kind::SameQ => same_row(alloc, args),
        Kind::UnsameQ => unsame_row(alloc, args),
        Kind::Not => not_row(alloc, args),
    }
}

/// What the built-in function of this name gives for these elements. For a name without a row the expression stays.
pub fn apply(alloc: Global, name: &str, args: &[Expr]) -> Result<Applied, ExprFault>
    ensures answer { IfOk result (λ a. plain_applied a ≡ apply name.now (trees args.now)) }
    ensures fits { IfOk result (λ _. ¬ IsTooLarge (apply name.now (trees args.now))) }
    ensures large { result ≡ Err ExprFault.Large → IsTooLarge (apply name.now (trees args.now)) }
    ensures passed { (ms : List Stamped) → AllFrom ms args.now → IfOk result (AppliedIsFrom ms) }
{
    match Kind::named(name) {
        Some(kind) => kind.apply(alloc, args),
        None => stay(),
    }
}
