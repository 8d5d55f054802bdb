//! The text of a message with its arguments.
ghost use Rattle.std.specs.Prelude.{◌≡◌, ◌++◌, ◌∷◌, ◌-◌, true, Some, None, map, option_map, slice_get, MatchOption, OnOk, string_bytes};
ghost use Rattle.std.specs.Char.{is_ascii_digit};
ghost use Rattle.std.specs.List.{list_all};
ghost use Rattle.std.specs.Str.Parse.{digits_value};
ghost use Rattle.wl_expr.specs.Stamped.{plain};
ghost use Rattle.wl_desk.specs.MessageText.{argument_text, backtick, filled_text, is_numeral, mark_digits, marked};

use std::alloc::Global;
use wl_expr::{Expr, Look};
use wl_form::input_form;
use wl_ports::Memory;

/// What the digits of a mark don't begin with.
const LEADING_ZERO: u8 = b'0';

fn are_digits(bytes: &[u8]) -> bool
    ensures { result ≡ list_all is_ascii_digit bytes.now }
{
    bytes.iter().all(|b| b.is_ascii_digit())
}

fn is_numeral(text: &str) -> bool
    ensures { result ≡ is_numeral text.now }
{
    let bytes = text.as_bytes();
    match bytes.first() {
        Some(first) => *first != LEADING_ZERO && are_digits(bytes),
        None => false,
    }
}

/// The digits of the mark whose first backtick stands right before a text, and what follows its second one.
fn mark(text: &str) -> Option<(&str, &str)>
    ensures { MatchOption result (mark_digits text.now ≡ None)
        (λ p. (mark_digits text.now ≡ Some p.0.now) × (text.now ≡ p.0.now ++ backtick ∷ p.1.now)) }
{
    let (digits, rest) = text.split_once('`')?;
    if is_numeral(digits) {
        Some((digits, rest))
    } else {
        None
    }
}

/// The argument with this number, counted from 1.
fn argument<'a>(args: &'a [Expr], digits: &str) -> Option<&'a Expr>
    requires { is_numeral digits.now ≡ true }
    ensures { option_map (λ e. e.now) result ≡ slice_get args.now (digits_value 10 digits.now - 1) }
{
    let _len = args.len();
    match digits.parse::<usize>() {
        Ok(number) => args.get(number - 1),
        Err(_) => None,
    }
}

fn push_argument(alloc: Global, out: &mut String, e: &Expr) -> Result<(), Memory>
    ensures { OnOk result (string_bytes out.new ≡ string_bytes out.old ++ argument_text (plain e.now)) }
{
    match e.view() {
        Look::Text(s) => Ok(out.push_str(s)?),
        _ => {
            let form = input_form(alloc, e)?;
            Ok(out.push_str(form.as_str())?)
        }
    }
}

fn push_mark(alloc: Global, out: &mut String, digits: &str, args: &[Expr]) -> Result<(), Memory>
    requires { is_numeral digits.now ≡ true }
    ensures { OnOk result (string_bytes out.new ≡ string_bytes out.old ++ marked (map plain args.now) digits.now) }
{
    match argument(args, digits) {
        Some(e) => Ok(push_argument(alloc, out, e)?),
        None => {
            out.push_str("`")?;
            out.push_str(digits)?;
            Ok(out.push_str("`")?)
        }
    }
}

/// Puts a stored text with the arguments in place of its marks behind what is there.
pub(crate) fn fill(alloc: Global, out: &mut String, text: &str, args: &[Expr]) -> Result<(), Memory>
    ensures { OnOk result (string_bytes out.new ≡ string_bytes out.old ++ filled_text text.now (map plain args.now)) }
{
    let mut rest = text;
    while let Some((before, behind)) = rest.split_once('`') {
        out.push_str(before)?;
        rest = match mark(behind) {
            Some((digits, after)) => {
                push_mark(alloc, out, digits, args)?;
                after
            }
            None => {
                out.push_str("`")?;
                behind
            }
        };
    }
    Ok(out.push_str(rest)?)
}
