//! Nodes that are printed as one word, by names and digits alone.
ghost use Rattle.std.specs.Prelude.{◌≡◌, option_map};
ghost use Rattle.wl_expr.specs.Stamped.{from_list, plain, plains};
ghost use Rattle.wl_form.specs.Table as table;
ghost use Rattle.wl_form.specs.Words as words;

use crate::heads::row_of;
use crate::operator::{Marks, Row};
use wl_expr::{Expr, Look};
use wl_ports::is_name;

/// A name or nothing, marks, and a name, a `.` or nothing; a slot of one `#` or two, with its number; or the names of a message.
#[derive(Clone, Copy)]
pub(crate) enum Word<'a> {
    Pattern(&'a str, Marks, &'a str),
    Slot(bool, u128),
    Message(&'a str, &'a str),
}

/// The name, if it is one.
pub(crate) fn name_of(e: &Expr) -> Option<&str>
    ensures { option_map (λ s. s.now) result ≡ words.name_of (plain e.now) }
{
    match e.view() {
        Look::Symbol(name) => Some(name),
        Look::Num(_) => None,
        Look::Text(_) => None,
        Look::Node(_, _) => None,
    }
}

/// Blanks with a name as head or without a head.
#[tactic(auto, using(crate::proofs::Spelled::no_blanks))]
fn blanks<'a>(name: &'a str, marks: Marks, args: &'a [Expr]) -> Option<Word<'a>>
    ensures { option_map words.shown_word result ≡ table.blanks_of marks name.now (plains (from_list args.now)) }
{
    if args.is_empty() {
        return Some(Word::Pattern(name, marks, ""));
    }
    if args.len() != 1 {
        return None;
    }
    match name_of(&args[0]) {
        Some(head) => Some(Word::Pattern(name, marks, head)),
        None => None,
    }
}

/// Blanks behind this name.
fn named_blanks<'a>(name: &'a str, e: &'a Expr) -> Option<Word<'a>>
    ensures { option_map words.shown_word result ≡ table.named_blanks name.now (plain e.now) }
{
    let Look::Node(head, args) = e.view() else {
        return None;
    };
    match row_of(head) {
        Row::Blanks(marks) => blanks(name, marks, args),
        _ => None,
    }
}

/// A name with blanks behind it.
#[tactic(auto, using(crate::proofs::Spelled::no_pattern))]
fn pattern(args: &[Expr]) -> Option<Word<'_>>
    ensures { option_map words.shown_word result ≡ words.pattern_word (plains (from_list args.now)) }
{
    if args.len() != 2 {
        return None;
    }
    match name_of(&args[0]) {
        Some(name) => named_blanks(name, &args[1]),
        None => None,
    }
}

/// Whether an expression is `_`.
fn is_blank(e: &Expr) -> bool
    ensures { result ≡ words.is_blank (plain e.now) }
{
    let Look::Node(head, args) = e.view() else {
        return false;
    };
    match row_of(head) {
        Row::Blanks(Marks::One) => args.is_empty(),
        _ => false,
    }
}

/// The first of two elements, where it is a name and the second one is `_`.
#[tactic(auto, using(crate::proofs::Spelled::no_name_before_blank))]
fn name_before_blank(args: &[Expr]) -> Option<&str>
    ensures { option_map (λ s. s.now) result ≡ words.name_before_blank (plains (from_list args.now)) }
{
    if args.len() != 2 {
        return None;
    }
    if is_blank(&args[1]) {
        name_of(&args[0])
    } else {
        None
    }
}

/// The name of `x_`, if an expression is one.
fn blank_name(e: &Expr) -> Option<&str>
    ensures { option_map (λ s. s.now) result ≡ words.blank_name (plain e.now) }
{
    let Look::Node(head, args) = e.view() else {
        return None;
    };
    match row_of(head) {
        Row::Pattern => name_before_blank(args),
        _ => None,
    }
}

/// `x_.` and `_.`.
#[tactic(auto, using(crate::proofs::Spelled::no_default))]
fn default(args: &[Expr]) -> Option<Word<'_>>
    ensures { option_map words.shown_word result ≡ words.default_word (plains (from_list args.now)) }
{
    if args.len() != 1 {
        return None;
    }
    if is_blank(&args[0]) {
        return Some(Word::Pattern("", Marks::One, "."));
    }
    match blank_name(&args[0]) {
        Some(name) => Some(Word::Pattern(name, Marks::One, ".")),
        None => None,
    }
}

#[tactic(auto, using(crate::proofs::Spelled::no_slot))]
fn slot(double: bool, args: &[Expr]) -> Option<Word<'_>>
    ensures { option_map words.shown_word result ≡ words.slot_word double (plains (from_list args.now)) }
{
    if args.len() != 1 {
        return None;
    }
    match args[0].view() {
        Look::Num(n) => {
            if n.num() >= 0 && n.den() == 1 {
                Some(Word::Slot(double, n.num().unsigned_abs()))
            } else {
                None
            }
        }
        _ => None,
    }
}

#[tactic(auto, using(crate::proofs::Spelled::no_message))]
fn message(args: &[Expr]) -> Option<Word<'_>>
    ensures { option_map words.shown_word result ≡ words.message_word (plains (from_list args.now)) }
{
    if args.len() != 2 {
        return None;
    }
    let Some(name) = name_of(&args[0]) else {
        return None;
    };
    match args[1].view() {
        Look::Text(tag) => {
            if is_name(tag) {
                Some(Word::Message(name, tag))
            } else {
                None
            }
        }
        _ => None,
    }
}

/// The word of a node with this row, if it is printed as one.
pub(crate) fn word_of(row: Row, args: &[Expr]) -> Option<Word<'_>>
    ensures { option_map words.shown_word result ≡ words.word_of row (plains (from_list args.now)) }
{
    match row {
        Row::Blanks(marks) => blanks("", marks, args),
        Row::Pattern => pattern(args),
        Row::Optional => default(args),
        Row::Slot(double) => slot(double, args),
        Row::Message => message(args),
        _ => None,
    }
}
