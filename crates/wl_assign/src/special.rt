//! The special forms of patterns, by the head and the elements of a node.
ghost use Rattle.std.specs.Prelude.{◌≡◌, map};
ghost use Rattle.wl_assign.specs.Kinds.{special_of};
ghost use Rattle.wl_expr.specs.Special.{of_none_or_one, of_one, of_two, of_one_or_two, of_symbol, special_named, special_node};
ghost use Rattle.wl_expr.specs.Stamped.{plain};

use wl_expr::{Expr, Look};

/// The special forms. A node with such a head and another number of elements is ordinary, and so is a `Pattern` whose
/// first element isn't a symbol.
#[derive(Clone, Copy)]
pub enum Special {
    Ordinary,
    Blank,
    BlankSequence,
    BlankNullSequence,
    Named,
    PatternTest,
    Condition,
    HoldPattern,
    Optional,
    Alternatives,
    Repeated,
    RepeatedNull,
    Verbatim,
    Except,
}

fn of_none_or_one(form: Special, args: &[Expr]) -> Special
    ensures { special_of result ≡ of_none_or_one (special_of form) (map plain args.now) }
{
    match args {
        [] | [_] => form,
        _ => Special::Ordinary,
    }
}

fn of_one(form: Special, args: &[Expr]) -> Special
    ensures { special_of result ≡ of_one (special_of form) (map plain args.now) }
{
    match args {
        [_] => form,
        _ => Special::Ordinary,
    }
}

fn of_two(form: Special, args: &[Expr]) -> Special
    ensures { special_of result ≡ of_two (special_of form) (map plain args.now) }
{
    match args {
        [_, _] => form,
        _ => Special::Ordinary,
    }
}

fn of_one_or_two(form: Special, args: &[Expr]) -> Special
    ensures { special_of result ≡ of_one_or_two (special_of form) (map plain args.now) }
{
    match args {
        [_] | [_, _] => form,
        _ => Special::Ordinary,
    }
}

fn of_symbol(form: Special, args: &[Expr]) -> Special
    ensures { special_of result ≡ of_symbol (special_of form) (map plain args.now) }
{
    let Some((name, _)) = args.split_first() else {
        return Special::Ordinary;
    };
    match name.view() {
        Look::Symbol(_) => of_two(form, args),
        _ => Special::Ordinary,
    }
}

fn special_named(name: &str, args: &[Expr]) -> Special
    ensures { special_of result ≡ special_named name.now (map plain args.now) }
{
    match name {
        "Blank" => of_none_or_one(Special::Blank, args),
        "BlankSequence" => of_none_or_one(Special::BlankSequence, args),
        "BlankNullSequence" => of_none_or_one(Special::BlankNullSequence, args),
        "Pattern" => of_symbol(Special::Named, args),
        "PatternTest" => of_two(Special::PatternTest, args),
        "Condition" => of_two(Special::Condition, args),
        "HoldPattern" => of_one(Special::HoldPattern, args),
        "Optional" => of_one_or_two(Special::Optional, args),
        "Alternatives" => Special::Alternatives,
        "Repeated" => of_one(Special::Repeated, args),
        "RepeatedNull" => of_one(Special::RepeatedNull, args),
        "Verbatim" => of_one(Special::Verbatim, args),
        "Except" => of_one_or_two(Special::Except, args),
        _ => Special::Ordinary,
    }
}

/// Which special form the node of this head and these elements is.
pub fn special_form(head: &Expr, args: &[Expr]) -> Special
    ensures { special_of result ≡ special_node (plain head.now) (map plain args.now) }
{
    match head.view() {
        Look::Symbol(name) => special_named(name, args),
        _ => Special::Ordinary,
    }
}
