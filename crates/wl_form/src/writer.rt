//! The writer of the InputForm. It is passed the level of the operator whose operand it writes.
ghost use Rattle.std.specs.Prelude.{◌≡◌, ◌<◌, MatchOption, OnOk, ◌∷◌, length};
ghost use Rattle.wl_expr.specs.Stamped.{from_list, plain, plains};
ghost use Rattle.wl_form.specs.Pages.{taken};
ghost use Rattle.wl_form.specs.Shown as shown;
ghost use Rattle.wl_form.specs.Table as table;
ghost use Rattle.wl_form.specs.Table.{showing, showings};
ghost use Rattle.wl_form.specs.Writing.{IsManyRow, IsProduct, after_shown, before_shown, call_shown, further_pieces, more_pieces, node_showing, node_shown, operator_behind, pair_operator, pair_shown, part_shown, placed, product_showing, row_pieces, statements_shown, sum_shown, term_pieces, terms_pieces};

use crate::heads::row_of;
use crate::leaves::{
    Turn, before_null, close, is_negative, is_symbol, open, turn_of, write_name, write_number,
    write_opposite, write_string, write_word,
};
use crate::operator::{
    Infix, Postfix, Prefix, Row, infix_level, infix_text, postfix_level, postfix_text,
    prefix_level, prefix_text, right_level,
};
use crate::page::Page;
use crate::word::word_of;
use std::alloc::Global;
use wl_expr::{Expr, Look};
use wl_ports::Memory;

/// The first element and the others, of which there are some.
fn many(args: &[Expr]) -> Option<(&Expr, &[Expr])>
    ensures { MatchOption result (length args.now < 2) (λ p. (args.now ≡ p.0.now ∷ p.1.now) × (0 < length p.1.now)) }
{
    match args.split_first() {
        Some((first, rest)) => {
            if rest.is_empty() {
                None
            } else {
                Some((first, rest))
            }
        }
        None => None,
    }
}

/// The operator behind the first of two elements, if the row has one there.
fn operator_behind(row: Row, first: &Expr) -> Option<Infix>
    ensures { result ≡ operator_behind row (plain first.now) }
{
    match row {
        Row::Pair(operator) => Some(operator),
        Row::Pattern => {
            if is_symbol(first) {
                Some(Infix::Colon)
            } else {
                None
            }
        }
        Row::Optional => {
            if is_symbol(first) {
                None
            } else {
                Some(Infix::Colon)
            }
        }
        _ => None,
    }
}

/// The operator between two elements, if there are two and the row has one there.
fn pair_operator(row: Row, args: &[Expr]) -> Option<Infix>
    ensures { result ≡ pair_operator row (plains (from_list args.now)) }
{
    if args.len() != 2 {
        return None;
    }
    operator_behind(row, &args[0])
}

/// The factors of a product, of which there are two or more.
fn factors<'a>(head: &Expr, args: &'a [Expr]) -> Option<(&'a Expr, &'a [Expr])>
    ensures { MatchOption result
        (node_showing (plain head.now) (plains (from_list args.now)) ≡ table.added (node_shown (plain head.now) (plains (from_list args.now))))
        (λ p. IsProduct (plain head.now) args.now p.0.now p.1.now) }
{
    match row_of(head) {
        Row::Product => match many(args) {
            Some((first, rest)) => Some((first, rest)),
            None => None,
        },
        _ => None,
    }
}

/// An expression as operand of this level.
#[cycle(write)]
pub(crate) fn write(alloc: Global, out: &mut Page, e: &Expr, level: u8) -> Result<(), Memory>
    requires { 0 < level }
    ensures { OnOk result (out.new ≡ taken out.old (placed level (table.shown (plain e.now)))) }
{
    match e.view() {
        Look::Num(n) => Ok(write_number(alloc, out, n, level)?),
        Look::Text(s) => Ok(write_string(alloc, out, s)?),
        Look::Symbol(s) => Ok(write_name(alloc, out, s)?),
        Look::Node(head, args) => Ok(write_node(alloc, out, head, args, level)?),
    }
}

#[cycle(write)]
fn write_node(
    alloc: Global,
    out: &mut Page,
    head: &Expr,
    args: &[Expr],
    level: u8,
) -> Result<(), Memory>
    requires { 0 < level }
    ensures { OnOk result (out.new ≡ taken out.old (placed level (node_shown (plain head.now) (plains (from_list args.now))))) }
{
    let row = row_of(head);
    if let Some(word) = word_of(row, args) {
        return Ok(write_word(alloc, out, word, level)?);
    }
    if let Some(operator) = pair_operator(row, args) {
        return Ok(write_pair(alloc, out, operator, &args[0], &args[1], level)?);
    }
    match row {
        Row::List => Ok(write_list(alloc, out, args, level)?),
        Row::Not => {
            if args.len() != 1 {
                return Ok(write_call(alloc, out, head, args, level)?);
            }
            Ok(write_before(alloc, out, Prefix::Not, &args[0], level)?)
        }
        Row::Ends(operator) => {
            if args.len() != 1 {
                return Ok(write_call(alloc, out, head, args, level)?);
            }
            Ok(write_after(alloc, out, operator, &args[0], level)?)
        }
        _ => match many(args) {
            Some((first, rest)) => Ok(write_many(alloc, out, row, head, args, first, rest, level)?),
            None => Ok(write_call(alloc, out, head, args, level)?),
        },
    }
}

/// A node of two elements or more, with a row for such ones or as a call.
#[cycle(write)]
fn write_many(
    alloc: Global,
    out: &mut Page,
    row: Row,
    head: &Expr,
    args: &[Expr],
    first: &Expr,
    rest: &[Expr],
    level: u8,
) -> Result<(), Memory>
    requires { IsManyRow row (plain head.now) args.now first.now rest.now }
    ensures { OnOk result (out.new ≡ taken out.old (placed level (node_shown (plain head.now) (plains (from_list args.now))))) }
{
    match row {
        Row::Sum => Ok(write_sum(alloc, out, first, rest, level)?),
        Row::Product => Ok(write_product(alloc, out, first, rest, level)?),
        Row::Chain(operator) => Ok(write_chain(alloc, out, operator, first, rest, level)?),
        Row::Statements => Ok(write_statements(alloc, out, first, rest, level)?),
        Row::Part => Ok(write_part(alloc, out, first, rest, level)?),
        _ => Ok(write_call(alloc, out, head, args, level)?),
    }
}

/// A product: `-x`, or its factors.
#[cycle(write)]
fn write_product(
    alloc: Global,
    out: &mut Page,
    first: &Expr,
    rest: &[Expr],
    level: u8,
) -> Result<(), Memory>
    requires { 0 < length rest.now }
    ensures { OnOk result (out.new ≡ taken out.old (placed level (product_showing (plain first.now) (plains (from_list rest.now))).whole)) }
{
    match turn_of(first, rest) {
        Turn::Dropped => {
            if rest.len() == 1 {
                return Ok(write_before(alloc, out, Prefix::Negate, &rest[0], level)?);
            }
            Ok(write_chain(alloc, out, Infix::Times, first, rest, level)?)
        }
        Turn::Opposed(_) => Ok(write_chain(alloc, out, Infix::Times, first, rest, level)?),
        Turn::Stays => Ok(write_chain(alloc, out, Infix::Times, first, rest, level)?),
    }
}

/// A product as later term of a sum, with its sign.
#[cycle(write)]
fn write_product_term(
    alloc: Global,
    out: &mut Page,
    first: &Expr,
    rest: &[Expr],
) -> Result<(), Memory>
    requires { 0 < length rest.now }
    ensures { OnOk result (out.new ≡ taken out.old (term_pieces (product_showing (plain first.now) (plains (from_list rest.now))))) }
{
    match turn_of(first, rest) {
        Turn::Dropped => {
            out.push_str(" - ")?;
            match many(rest) {
                Some((second, others)) => Ok(write_chain(
                    alloc,
                    out,
                    Infix::Times,
                    second,
                    others,
                    13,
                )?),
                None => Ok(write(alloc, out, &rest[0], 12)?),
            }
        }
        Turn::Opposed(n) => {
            out.push_str(" - ")?;
            out.open(alloc)?;
            write_opposite(alloc, out, n)?;
            write_further(alloc, out, Infix::Times, rest)?;
            Ok(out.close(alloc)?)
        }
        Turn::Stays => {
            out.push_str(" + ")?;
            Ok(write_chain(alloc, out, Infix::Times, first, rest, 13)?)
        }
    }
}

/// An operator between two operands.
#[cycle(write)]
fn write_pair(
    alloc: Global,
    out: &mut Page,
    operator: Infix,
    left: &Expr,
    right: &Expr,
    level: u8,
) -> Result<(), Memory>
    ensures { OnOk result (out.new ≡ taken out.old (placed level (pair_shown operator (showing (plain left.now)) (showing (plain right.now))))) }
{
    let own = infix_level(operator);
    open(alloc, out, level <= own)?;
    write(alloc, out, left, own)?;
    out.push_str(infix_text(operator))?;
    write(alloc, out, right, right_level(operator))?;
    Ok(close(alloc, out, level <= own)?)
}

/// An operator before its operand.
#[cycle(write)]
fn write_before(
    alloc: Global,
    out: &mut Page,
    operator: Prefix,
    e: &Expr,
    level: u8,
) -> Result<(), Memory>
    ensures { OnOk result (out.new ≡ taken out.old (placed level (before_shown operator (showing (plain e.now))))) }
{
    let own = prefix_level(operator);
    open(alloc, out, level <= own)?;
    out.push_str(prefix_text(operator))?;
    write(alloc, out, e, own)?;
    Ok(close(alloc, out, level <= own)?)
}

/// An operator behind its operand.
#[cycle(write)]
fn write_after(
    alloc: Global,
    out: &mut Page,
    operator: Postfix,
    e: &Expr,
    level: u8,
) -> Result<(), Memory>
    ensures { OnOk result (out.new ≡ taken out.old (placed level (after_shown operator (showing (plain e.now))))) }
{
    let own = postfix_level(operator);
    open(alloc, out, level <= own)?;
    write(alloc, out, e, own)?;
    out.push_str(postfix_text(operator))?;
    Ok(close(alloc, out, level <= own)?)
}

/// Operands of one operator.
#[cycle(write)]
fn write_chain(
    alloc: Global,
    out: &mut Page,
    operator: Infix,
    first: &Expr,
    rest: &[Expr],
    level: u8,
) -> Result<(), Memory>
    requires { 0 < length rest.now }
    ensures { OnOk result (out.new ≡ taken out.old (placed level (table.joined operator (showing (plain first.now)) (showings (plains (from_list rest.now)))))) }
{
    let own = infix_level(operator);
    open(alloc, out, level <= own)?;
    write(alloc, out, first, own)?;
    write_further(alloc, out, operator, rest)?;
    Ok(close(alloc, out, level <= own)?)
}

#[cycle(write)]
#[tactic(auto, using(wl_expr::proofs::Parts::depth_arg))]
fn write_further(
    alloc: Global,
    out: &mut Page,
    operator: Infix,
    args: &[Expr],
) -> Result<(), Memory>
    ensures { OnOk result (out.new ≡ taken out.old (further_pieces operator (showings (plains (from_list args.now))))) }
{
    let own = infix_level(operator);
    for arg in args {
        out.push_str(infix_text(operator))?;
        write(alloc, out, arg, own)?;
    }
    Ok(())
}

/// Statements; a last Null leaves the `;`.
#[cycle(write)]
#[tactic(auto, using(crate::proofs::Nodes::before_null_depths))]
fn write_statements(
    alloc: Global,
    out: &mut Page,
    first: &Expr,
    rest: &[Expr],
    level: u8,
) -> Result<(), Memory>
    requires { 0 < length rest.now }
    ensures { OnOk result (out.new ≡ taken out.old (placed level (statements_shown (plain first.now) (plains (from_list rest.now))))) }
{
    match before_null(rest) {
        Some(others) => {
            open(alloc, out, level <= 30)?;
            write(alloc, out, first, 30)?;
            write_further(alloc, out, Infix::Semi, others)?;
            out.push_str(";")?;
            Ok(close(alloc, out, level <= 30)?)
        }
        None => Ok(write_chain(alloc, out, Infix::Semi, first, rest, level)?),
    }
}

/// `e[[i, j]]`.
#[cycle(write)]
fn write_part(
    alloc: Global,
    out: &mut Page,
    first: &Expr,
    rest: &[Expr],
    level: u8,
) -> Result<(), Memory>
    requires { 0 < length rest.now }
    ensures { OnOk result (out.new ≡ taken out.old (placed level (part_shown (showing (plain first.now)) (showings (plains (from_list rest.now)))))) }
{
    open(alloc, out, level <= 3)?;
    write(alloc, out, first, 3)?;
    out.push_str("[[")?;
    write_elements(alloc, out, rest)?;
    out.push_str("]]")?;
    Ok(close(alloc, out, level <= 3)?)
}

/// The terms of a sum.
#[cycle(write)]
fn write_sum(
    alloc: Global,
    out: &mut Page,
    first: &Expr,
    rest: &[Expr],
    level: u8,
) -> Result<(), Memory>
    requires { 0 < length rest.now }
    ensures { OnOk result (out.new ≡ taken out.old (placed level (sum_shown (showing (plain first.now)) (showings (plains (from_list rest.now)))))) }
{
    open(alloc, out, level <= 13)?;
    write(alloc, out, first, 13)?;
    write_terms(alloc, out, rest)?;
    Ok(close(alloc, out, level <= 13)?)
}

#[cycle(write)]
#[tactic(auto, using(wl_expr::proofs::Parts::depth_arg))]
fn write_terms(alloc: Global, out: &mut Page, args: &[Expr]) -> Result<(), Memory>
    ensures { OnOk result (out.new ≡ taken out.old (terms_pieces (showings (plains (from_list args.now))))) }
{
    for arg in args {
        write_term(alloc, out, arg)?;
    }
    Ok(())
}

/// A later term of a sum, with its sign.
#[cycle(write)]
fn write_term(alloc: Global, out: &mut Page, e: &Expr) -> Result<(), Memory>
    ensures { OnOk result (out.new ≡ taken out.old (term_pieces (showing (plain e.now)))) }
{
    match e.view() {
        Look::Num(n) => {
            if is_negative(n) {
                out.push_str(" - ")?;
                return Ok(write_opposite(alloc, out, n)?);
            }
            out.push_str(" + ")?;
            Ok(write_number(alloc, out, n, 13)?)
        }
        Look::Text(s) => {
            out.push_str(" + ")?;
            Ok(write_string(alloc, out, s)?)
        }
        Look::Symbol(s) => {
            out.push_str(" + ")?;
            Ok(write_name(alloc, out, s)?)
        }
        Look::Node(head, args) => Ok(write_node_term(alloc, out, head, args)?),
    }
}

#[cycle(write)]
fn write_node_term(alloc: Global, out: &mut Page, head: &Expr, args: &[Expr]) -> Result<(), Memory>
    ensures { OnOk result (out.new ≡ taken out.old (term_pieces (node_showing (plain head.now) (plains (from_list args.now))))) }
{
    if let Some((first, rest)) = factors(head, args) {
        return Ok(write_product_term(alloc, out, first, rest)?);
    }
    out.push_str(" + ")?;
    Ok(write_node(alloc, out, head, args, 13)?)
}

/// `{a, b}`.
#[cycle(write)]
fn write_list(alloc: Global, out: &mut Page, args: &[Expr], level: u8) -> Result<(), Memory>
    requires { 0 < level }
    ensures { OnOk result (out.new ≡ taken out.old (placed level (shown.braces (table.elems (showings (plains (from_list args.now))))))) }
{
    out.open(alloc)?;
    out.push_str("{")?;
    write_elements(alloc, out, args)?;
    out.push_str("}")?;
    Ok(out.close(alloc)?)
}

/// `f[a, b]`.
#[cycle(write)]
fn write_call(
    alloc: Global,
    out: &mut Page,
    head: &Expr,
    args: &[Expr],
    level: u8,
) -> Result<(), Memory>
    ensures { OnOk result (out.new ≡ taken out.old (placed level (call_shown (showing (plain head.now)) (showings (plains (from_list args.now)))))) }
{
    open(alloc, out, level <= 3)?;
    write(alloc, out, head, 4)?;
    out.push_str("[")?;
    write_elements(alloc, out, args)?;
    out.push_str("]")?;
    Ok(close(alloc, out, level <= 3)?)
}

/// Elements with commas between them.
#[cycle(write)]
fn write_elements(alloc: Global, out: &mut Page, args: &[Expr]) -> Result<(), Memory>
    ensures { OnOk result (out.new ≡ taken out.old (row_pieces (showings (plains (from_list args.now))))) }
{
    match args.split_first() {
        Some((first, rest)) => {
            write(alloc, out, first, 31)?;
            Ok(write_more(alloc, out, rest)?)
        }
        None => Ok(()),
    }
}

#[cycle(write)]
#[tactic(auto, using(wl_expr::proofs::Parts::depth_arg))]
fn write_more(alloc: Global, out: &mut Page, args: &[Expr]) -> Result<(), Memory>
    ensures { OnOk result (out.new ≡ taken out.old (more_pieces (showings (plains (from_list args.now))))) }
{
    for arg in args {
        out.push_str(", ")?;
        write(alloc, out, arg, 31)?;
    }
    Ok(())
}
