//! Left sides without a pattern, which match nothing but themselves.
ghost use Rattle.std.specs.Prelude.{◌≡◌, ◌&&◌};
ghost use Rattle.std.specs.List.{list_all};
ghost use Rattle.wl_expr.specs.Stamped.{plain, plains, from_list};
ghost use Rattle.wl_match.specs.Literals.{heads_form, is_free, literal, literals, plain_head};

use wl_expr::{Expr, Look};
use wl_match::Flags;

/// Whether nodes with this head are forms of patterns, with the right number of elements.
fn heads_form(name: &str) -> bool
    ensures { result ≡ heads_form name.now }
{
    match name {
        "Blank" => true,
        "BlankSequence" => true,
        "BlankNullSequence" => true,
        "Pattern" => true,
        "PatternTest" => true,
        "Condition" => true,
        "HoldPattern" => true,
        "Optional" => true,
        "Alternatives" => true,
        "Repeated" => true,
        "RepeatedNull" => true,
        "Verbatim" => true,
        "Except" => true,
        _ => false,
    }
}

fn is_plain_head(head: &Expr) -> bool
    ensures { result ≡ plain_head (plain head.now) }
{
    match head.view() {
        Look::Symbol(name) => !heads_form(name),
        _ => true,
    }
}

/// Whether no form of a pattern stands in the expression.
#[cycle(literal)]
fn is_literal(e: &Expr) -> bool
    ensures { result ≡ literal (plain e.now) }
{
    match e.view() {
        Look::Node(head, args) => is_plain_head(head) && is_literal(head) && are_literal(args),
        _ => true,
    }
}

#[cycle(literal)]
#[tactic(auto, using(wl_expr::proofs::Parts::depth_arg))]
fn are_literal(args: &[Expr]) -> bool
    ensures { result ≡ literals (plains (from_list args.now)) }
{
    for arg in args {
        if !is_literal(arg) {
            return false;
        }
    }
    true
}

fn are_free(flags: &[Flags]) -> bool
    ensures { result ≡ list_all is_free flags.now }
{
    for held in flags {
        if held.flat || held.orderless || held.one_identity {
            return false;
        }
    }
    true
}

/// Whether a left side, whose heads have these flags, matches nothing but itself, with one leaf.
pub fn matches_itself(left: &Expr, flags: &[Flags]) -> bool
    ensures { result ≡ (list_all is_free flags.now && literal (plain left.now)) }
{
    are_free(flags) && is_literal(left)
}
