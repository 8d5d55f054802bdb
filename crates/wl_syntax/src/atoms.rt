//! What an atom stands for. The scan gives each atom the form of its kind.
ghost use Rattle.std.specs.Prelude.{◌≡◌, ◌≢◌, ◌<◌, IfOk, pos, true, length, codes};
ghost use Rattle.wl_expr.specs.Stamped.{unstamped};
ghost use Rattle.wl_expr.specs.Tree as full;
ghost use Rattle.wl_expr.specs.Tree.{IsWithinLimits};
ghost use Rattle.wl_scan.specs.Forms.{IsWord, IsPattern, IsSlot, IsOut, head_of};
ghost use Rattle.wl_scan.specs.Literals.{literal_value, HasValue};
ghost use Rattle.wl_syntax.specs.Atoms as atoms;
ghost use Rattle.wl_syntax.specs.Chain.{form};
ghost use Rattle.wl_syntax.specs.Fits.{FitsOf};
ghost use Rattle.wl_syntax.specs.Lower.{reach};
ghost use Rattle.wl_syntax.specs.Polish.{atom_of};
ghost use Rattle.wl_syntax.specs.Small.{IsAtom};
ghost use Rattle.wl_syntax.specs.Table.{is_head};
ghost use Rattle.wl_syntax.specs.Tree.{leaf};

use crate::chain::Form;
use crate::lower::whole_number;
use crate::terms::{named, symbol, text};
use crate::token::Atom;
use std::alloc::Global;
use wl_expr::Expr;
use wl_ports::Memory;
use wl_scan::literal_value;

/// What stands at the top of an atom.
pub(crate) fn atom_form(atom: Atom<'_>) -> Form
    ensures { result ≡ form (leaf (atom_of atom.entry)) }
{
    match atom {
        Atom::Name(_) => Form::Name,
        _ => Form::Other,
    }
}

/// The reach of an atom: a number is reached at once.
pub(crate) fn number_reach(atom: Atom<'_>) -> Option<u16>
    ensures { result ≡ reach (leaf (atom_of atom.entry)) }
{
    match atom {
        Atom::Number(_) => Some(0),
        _ => None,
    }
}

/// The number that a literal writes, or no digits at all.
fn number(alloc: Global, literal: &str) -> Result<Expr, Memory>
    requires { HasValue literal.now }
    ensures { IfOk result (λ e. e ≡ unstamped (atoms.whole_number (pos (literal_value literal.now)))) }
{
    let value = literal_value(literal);
    whole_number(alloc, value as i128)
}

fn index(alloc: Global, digits: &str) -> Result<Expr, Memory>
    requires { HasValue digits.now }
    ensures { IfOk result (λ e. e ≡ unstamped (atoms.index digits.now)) }
{
    if digits.is_empty() {
        return whole_number(alloc, 1);
    }
    number(alloc, digits)
}

fn slot(alloc: Global, token: &str) -> Result<Expr, Memory>
    requires form { IsSlot token.now }
    requires fits { IsWithinLimits (atoms.slot_tree token.now) }
    ensures { IfOk result (λ e. e ≡ unstamped (atoms.slot_tree token.now)) }
{
    let Some(rest) = token.strip_prefix('#') else {
        unreachable!()
    };
    match rest.strip_prefix('#') {
        Some(digits) => {
            let place = index(alloc, digits)?;
            Ok(named(alloc, "SlotSequence", &[place])?)
        }
        None => {
            let place = index(alloc, rest)?;
            Ok(named(alloc, "Slot", &[place])?)
        }
    }
}

fn output(alloc: Global, token: &str) -> Result<Expr, Memory>
    requires form { IsOut token.now }
    requires fits { IsWithinLimits (atoms.output_tree token.now) }
    ensures { IfOk result (λ e. e ≡ unstamped (atoms.output_tree token.now)) }
{
    let Some(rest) = token.strip_prefix('%') else {
        unreachable!()
    };
    if rest.is_empty() {
        return Ok(named(alloc, "Out", &[])?);
    }
    match rest.strip_prefix('%') {
        Some(_) => {
            let back = whole_number(alloc, -(token.len() as i128))?;
            Ok(named(alloc, "Out", &[back])?)
        }
        None => {
            let line = number(alloc, rest)?;
            Ok(named(alloc, "Out", &[line])?)
        }
    }
}

fn blank(alloc: Global, kind: &str, head: &str) -> Result<Expr, Memory>
    requires kind { is_head kind.now ≡ true }
    requires word { 0 < length head.now → head.now ≢ codes "." → IsWord head.now }
    requires fits { IsWithinLimits (atoms.blank kind.now head.now) }
    ensures { IfOk result (λ e. e ≡ unstamped (atoms.blank kind.now head.now)) }
{
    if head.is_empty() {
        return Ok(named(alloc, kind, &[])?);
    }
    if head == "." {
        return Ok(named(alloc, kind, &[])?);
    }
    let head = symbol(alloc, head)?;
    Ok(named(alloc, kind, &[head])?)
}

fn blanks(alloc: Global, rest: &str) -> Result<Expr, Memory>
    requires word { 0 < length (head_of rest.now) → head_of rest.now ≢ codes "." → IsWord (head_of rest.now) }
    requires fits { IsWithinLimits (atoms.blanks rest.now) }
    ensures { IfOk result (λ e. e ≡ unstamped (atoms.blanks rest.now)) }
{
    match rest.strip_prefix('_') {
        Some(second) => match second.strip_prefix('_') {
            Some(third) => Ok(blank(alloc, "BlankNullSequence", third)?),
            None => Ok(blank(alloc, "BlankSequence", second)?),
        },
        None => Ok(blank(alloc, "Blank", rest)?),
    }
}

fn bound(alloc: Global, name: &str, pattern: Expr) -> Result<Expr, Memory>
    requires word { 0 < length name.now → IsWord name.now }
    requires fits { FitsOf pattern (atoms.bound name.now) }
    ensures { IfOk result (λ e. (p : full.Tree) → pattern ≡ unstamped p → e ≡ unstamped (atoms.bound name.now p)) }
{
    if name.is_empty() {
        return Ok(pattern);
    }
    let name = symbol(alloc, name)?;
    Ok(named(alloc, "Pattern", &[name, pattern])?)
}

fn pattern(alloc: Global, text: &str) -> Result<Expr, Memory>
    requires form { IsPattern text.now }
    requires fits { IsWithinLimits (atoms.pattern_tree text.now) }
    ensures { IfOk result (λ e. e ≡ unstamped (atoms.pattern_tree text.now)) }
{
    let Some((name, rest)) = text.split_once('_') else {
        unreachable!()
    };
    let blanks = blanks(alloc, rest)?;
    let pattern = bound(alloc, name, blanks)?;
    if rest == "." {
        return Ok(named(alloc, "Optional", &[pattern])?);
    }
    Ok(pattern)
}

/// The character behind a `\`.
fn escaped(ch: char) -> char
    ensures { result ≡ atoms.escaped ch }
{
    match ch {
        'n' => '\n',
        't' => '\t',
        'r' => '\r',
        _ => ch,
    }
}

fn string(alloc: Global, token: &str) -> Result<Expr, Memory>
    requires { IsWithinLimits (full.text (atoms.string_of token.now)) }
    ensures { IfOk result (λ e. e ≡ unstamped (full.text (atoms.string_of token.now))) }
{
    let mut unquoted = String::new(alloc);
    let mut is_escaped = false;
    for ch in token.chars() {
        if is_escaped {
            unquoted.push(escaped(ch))?;
            is_escaped = false;
        } else if ch == '\\' {
            is_escaped = true;
        } else if ch != '"' {
            unquoted.push(ch)?;
        }
    }
    Ok(text(alloc, unquoted.as_str())?)
}

/// The expression of an atom.
pub(crate) fn atom_expr(alloc: Global, atom: Atom<'_>) -> Result<Expr, Memory>
    requires form { IsAtom (atom_of atom) }
    requires fits { IsWithinLimits (atoms.atom_tree (atom_of atom)) }
    ensures { IfOk result (λ e. e ≡ unstamped (atoms.atom_tree (atom_of atom.entry))) }
{
    match atom {
        Atom::Number(digits) => number(alloc, digits),
        Atom::Name(name) => symbol(alloc, name),
        Atom::Pattern(text) => pattern(alloc, text),
        Atom::Slot(text) => slot(alloc, text),
        Atom::Out(text) => output(alloc, text),
        Atom::Text(token) => string(alloc, token),
    }
}
