//! The special forms of patterns.
ghost use Rattle.std.specs.Prelude.{◌≡◌, map};
ghost use Rattle.wl_expr.specs.Special.{of_none_or_one, of_one, of_two, of_one_or_two, of_symbol, special_named, special_node};
ghost use Rattle.wl_expr.specs.Stamped.{plain};
ghost use Rattle.wl_rules.specs.Forms.{special_of};

use wl_expr::{Expr, Look};

/// Which special form a node is. One with another number of elements than its form takes is ordinary.
#[derive(Clone, Copy)]
pub(crate) enum Form {
    Ordinary,
    Blank,
    BlankSequence,
    BlankNullSequence,
    Named,
    PatternTest,
    Condition,
    HoldPattern,
    Optional,
    Alternatives,
    Repeated,
    RepeatedNull,
    Verbatim,
    Except,
}

impl Form {
    pub(crate) fn of(head: &Expr, args: &[Expr]) -> Form
        ensures { special_of result ≡ special_node (plain head.now) (map plain args.now) }
    {
        match head.view() {
            Look::Symbol(name) => Form::named(name, args),
            _ => Form::Ordinary,
        }
    }

    fn named(name: &str, args: &[Expr]) -> Form
        ensures { special_of result ≡ special_named name.now (map plain args.now) }
    {
        if name == "Blank" {
            return Form::Blank.of_none_or_one(args);
        }
        if name == "BlankSequence" {
            return Form::BlankSequence.of_none_or_one(args);
        }
        if name == "BlankNullSequence" {
            return Form::BlankNullSequence.of_none_or_one(args);
        }
        if name == "Pattern" {
            return Form::Named.of_symbol(args);
        }
        if name == "PatternTest" {
            return Form::PatternTest.of_two(args);
        }
        if name == "Condition" {
            return Form::Condition.of_two(args);
        }
        if name == "HoldPattern" {
            return Form::HoldPattern.of_one(args);
        }
        if name == "Optional" {
            return Form::Optional.of_one_or_two(args);
        }
        if name == "Alternatives" {
            return Form::Alternatives;
        }
        if name == "Repeated" {
            return Form::Repeated.of_one(args);
        }
        if name == "RepeatedNull" {
            return Form::RepeatedNull.of_one(args);
        }
        if name == "Verbatim" {
            return Form::Verbatim.of_one(args);
        }
        if name == "Except" {
            return Form::Except.of_one_or_two(args);
        }
        Form::Ordinary
    }

    fn of_none_or_one(self, args: &[Expr]) -> Form
        ensures { special_of result ≡ of_none_or_one (special_of self) (map plain args.now) }
    {
        match args {
            [] | [_] => self,
            _ => Form::Ordinary,
        }
    }

    fn of_one(self, args: &[Expr]) -> Form
        ensures { special_of result ≡ of_one (special_of self) (map plain args.now) }
    {
        match args {
            [_] => self,
            _ => Form::Ordinary,
        }
    }

    fn of_two(self, args: &[Expr]) -> Form
        ensures { special_of result ≡ of_two (special_of self) (map plain args.now) }
    {
        match args {
            [_, _] => self,
            _ => Form::Ordinary,
        }
    }

    fn of_one_or_two(self, args: &[Expr]) -> Form
        ensures { special_of result ≡ of_one_or_two (special_of self) (map plain args.now) }
    {
        match args {
            [_] | [_, _] => self,
            _ => Form::Ordinary,
        }
    }

    #[tactic(auto, using(crate::proofs::Keys::of_symbol_at))]
    fn of_symbol(self, args: &[Expr]) -> Form
        ensures { special_of result ≡ of_symbol (special_of self) (map plain args.now) }
    {
        if let [first, _] = args {
            if let Look::Symbol(_) = first.view() {
                return self;
            }
        }
        Form::Ordinary
    }
}
