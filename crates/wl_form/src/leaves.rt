//! What is written without looking into elements: numbers, strings, names, words and parentheses.
ghost use Rattle.std.specs.Prelude.{◌≡◌, ◌++◌, ◌<◌, OnOk, MatchOption, false, decimal, length, nat_le};
ghost use Rattle.wl_expr.specs.Stamped.{from_list, plain, plains};
ghost use Rattle.wl_expr.specs.Tree as tree;
ghost use Rattle.wl_form.specs.Pages.{opened, taken};
ghost use Rattle.wl_form.specs.Shown as shown;
ghost use Rattle.wl_form.specs.Table as table;
ghost use Rattle.wl_form.specs.Words.{message_shown, shown_word};
ghost use Rattle.wl_form.specs.Writing.{Closed, HasTurn, LastNull, is_null, last_is_null, leaf, opening, placed};

use crate::operator::{marks_text, slot_marks};
use crate::page::Page;
use crate::word::{Word, name_of};
use std::alloc::Global;
use wl_exact::Num;
use wl_expr::{Expr, Look};
use wl_ports::Memory;

/// A row within the row under way begins, in parentheses or not.
pub(crate) fn open(alloc: Global, out: &mut Page, in_parens: bool) -> Result<(), Memory>
    ensures { OnOk result (out.new ≡ opened (taken out.old (opening in_parens))) }
{
    if in_parens {
        out.push_str("(")?;
    }
    Ok(out.open(alloc)?)
}

/// That row ends.

#[tactic(auto, using(crate::proofs::Pages::closed))]
pub(crate) fn close(alloc: Global, out: &mut Page, in_parens: bool) -> Result<(), Memory>
    ensures { OnOk result (Closed in_parens out.old out.new) }
{
    out.close(alloc)?;
    if in_parens {
        out.push_str(")")?;
    }
    Ok(())
}

pub(crate) fn is_negative(n: Num) -> bool
    ensures { result ≡ shown.is_negative n }
{
    n.num() < 0
}

#[tactic(auto, using(crate::proofs::Products::no_minus_one, crate::proofs::Products::minus_one_when))]
fn is_minus_one(n: Num) -> bool
    ensures { result ≡ table.is_minus_one n }
{
    if n.num() != -1 {
        return false;
    }
    n.den() == 1
}

fn is_number(e: &Expr) -> bool
    ensures { result ≡ table.is_number (plain e.now) }
{
    match e.view() {
        Look::Num(_) => true,
        Look::Text(_) => false,
        Look::Symbol(_) => false,
        Look::Node(_, _) => false,
    }
}

pub(crate) fn is_symbol(e: &Expr) -> bool
    ensures { result ≡ table.is_symbol (plain e.now) }
{
    match e.view() {
        Look::Num(_) => false,
        Look::Text(_) => false,
        Look::Symbol(_) => true,
        Look::Node(_, _) => false,
    }
}

fn is_null(e: &Expr) -> bool
    ensures { result ≡ is_null (plain e.now) }
{
    match e.view() {
        Look::Num(_) => false,
        Look::Text(_) => false,
        Look::Symbol(name) => name == "Null",
        Look::Node(_, _) => false,
    }
}

/// The expressions before a last Null.
pub(crate) fn before_null(args: &[Expr]) -> Option<&[Expr]>
    ensures { MatchOption result (last_is_null args.now ≡ false) (λ others. LastNull args.now others.now) }
{
    match args.split_last() {
        Some((last, others)) => { if is_null(last) { Some(others) } else { None } }
        None => None,
    }
}

/// How a product stands as later term of a sum: with the opposite of its first number, without its -1, or as it is.
#[derive(Clone, Copy)]
pub(crate) enum Turn {
    Opposed(Num),
    Dropped,
    Stays,
}

/// How a product of this number and something more does.
fn number_turn(n: Num, second: &Expr) -> Turn
    ensures { HasTurn result (tree.num n) (tree.more (plain second.now) tree.none) }
{
    if is_minus_one(n) {
        if is_number(second) {
            Turn::Stays
        } else {
            Turn::Dropped
        }
    } else if is_negative(n) {
        Turn::Opposed(n)
    } else {
        Turn::Stays
    }
}

pub(crate) fn turn_of(first: &Expr, rest: &[Expr]) -> Turn
    requires { 0 < length rest.now }
    ensures { HasTurn result (plain first.now) (plains (from_list rest.now)) }
{
    match first.view() {
        Look::Num(n) => number_turn(n, &rest[0]),
        Look::Text(_) => Turn::Stays,
        Look::Symbol(_) => Turn::Stays,
        Look::Node(_, _) => Turn::Stays,
    }
}

fn number_level(n: Num) -> u8
    ensures { result ≡ shown.number_level n }
{
    if n.den() != 1 {
        11
    } else if n.num() < 0 {
        10
    } else {
        0
    }
}

/// A number as operand of this level.
pub(crate) fn write_number(alloc: Global, out: &mut Page, n: Num, level: u8) -> Result<(), Memory>
    ensures { OnOk result (out.new ≡ taken out.old (placed level (shown.number n))) }
{
    let own = number_level(n);
    open(alloc, out, level <= own)?;
    out.push_number(alloc, n)?;
    Ok(close(alloc, out, level <= own)?)
}

/// The opposite of a number, without parentheses.
pub(crate) fn write_opposite(alloc: Global, out: &mut Page, n: Num) -> Result<(), Memory>
    ensures { OnOk result (out.new ≡ taken out.old (leaf (shown.number_text (table.opposite n)))) }
{
    out.open(alloc)?;
    out.push_opposite(alloc, n)?;
    Ok(close(alloc, out, false)?)
}

pub(crate) fn write_string(alloc: Global, out: &mut Page, text: &str) -> Result<(), Memory>
    ensures { OnOk result (out.new ≡ taken out.old (leaf (shown.quoted text.now))) }
{
    out.open(alloc)?;
    out.push_quoted(text)?;
    Ok(close(alloc, out, false)?)
}

pub(crate) fn write_name(alloc: Global, out: &mut Page, name: &str) -> Result<(), Memory>
    ensures { OnOk result (out.new ≡ taken out.old (leaf name.now)) }
{
    out.open(alloc)?;
    out.push_str(name)?;
    Ok(close(alloc, out, false)?)
}

fn write_pattern(
    alloc: Global,
    out: &mut Page,
    name: &str,
    marks: &str,
    head: &str,
) -> Result<(), Memory>
    ensures { OnOk result (out.new ≡ taken out.old (leaf (name.now ++ (marks.now ++ head.now)))) }
{
    out.open(alloc)?;
    out.push_str(name)?;
    out.push_str(marks)?;
    out.push_str(head)?;
    Ok(close(alloc, out, false)?)
}

fn write_slot(alloc: Global, out: &mut Page, double: bool, n: u128) -> Result<(), Memory>
    ensures { OnOk result (out.new ≡ taken out.old (leaf (shown.slot_marks double ++ decimal n))) }
{
    out.open(alloc)?;
    out.push_str(slot_marks(double))?;
    out.push_digits(alloc, n)?;
    Ok(close(alloc, out, false)?)
}

/// `s::t`.
fn write_message(
    alloc: Global,
    out: &mut Page,
    name: &str,
    tag: &str,
    level: u8,
) -> Result<(), Memory>
    ensures { OnOk result (out.new ≡ taken out.old (placed level (message_shown name.now tag.now))) }
{
    open(alloc, out, level <= 1)?;
    write_name(alloc, out, name)?;
    out.push_str("::")?;
    write_name(alloc, out, tag)?;
    Ok(close(alloc, out, level <= 1)?)
}

/// A word as operand of this level.
pub(crate) fn write_word(
    alloc: Global,
    out: &mut Page,
    word: Word<'_>,
    level: u8,
) -> Result<(), Memory>
    requires { 0 < level }
    ensures { OnOk result (out.new ≡ taken out.old (placed level (shown_word word.entry))) }
{
    match word {
        Word::Pattern(name, marks, head) => Ok(write_pattern(
            alloc,
            out,
            name,
            marks_text(marks),
            head,
        )?),
        Word::Slot(double, n) => Ok(write_slot(alloc, out, double, n)?),
        Word::Message(name, tag) => Ok(write_message(alloc, out, name, tag, level)?),
    }
}
