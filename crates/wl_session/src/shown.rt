//! What is shown of a cell.
ghost use Rattle.std.specs.Prelude.{◌≡◌, ◌++◌, [], ◌∷◌, List, IfOk, OnOk, option_map, string_bytes};
ghost use Rattle.wl_expr.specs.Passed.{IsFrom};
ghost use Rattle.wl_expr.specs.Stamped.{Stamped, plain};
ghost use Rattle.wl_session.specs.Line.{answer_line, answer_lines, form_of, label, lines, unwrapped, wrapper_of, written};
ghost use Rattle.wl_session.specs.Shown.{lines_of, unwrapped_of};

use crate::options::Form;
use crate::task::is_the;
use std::alloc::Global;
use wl_eval::Item;
use wl_expr::{Expr, Look};
use wl_form::{full_form, input_form};
use wl_ports::Memory;

/// A value without one outer `FullForm` or `InputForm`, and which of them it was.
#[derive(Drop)]
pub(crate) struct Unwrapped {
    pub(crate) wrapper: Option<Form>,
    pub(crate) kept: Expr,
}

/// Takes one outer form from a value.
pub(crate) fn unwrap(value: &Expr) -> Result<Unwrapped, Memory>
    ensures value { IfOk result (λ u. unwrapped_of u ≡ unwrapped (plain value.now)) }
    ensures passed { IfOk result (λ u. (ms : List Stamped) → IsFrom ms value.now → IsFrom ms u.kept) }
{
    match value.view() {
        Look::Num(_) => bare(value),
        Look::Text(_) => bare(value),
        Look::Symbol(_) => bare(value),
        Look::Node(head, args) => {
            if args.len() != 1 {
                return bare(value);
            }
            match wrapper_of(head) {
                None => bare(value),
                Some(form) => {
                    let kept = args[0].copy()?;
                    Ok(Unwrapped {
                        wrapper: Some(form),
                        kept,
                    })
                }
            }
        }
    }
}

/// A value that has no such form.
fn bare(value: &Expr) -> Result<Unwrapped, Memory>
    ensures { IfOk result (λ u. u ≡ record { wrapper = None; kept = value.now }) }
{
    let kept = value.copy()?;
    Ok(Unwrapped {
        wrapper: None,
        kept,
    })
}

fn wrapper_of(head: &Expr) -> Option<Form>
    ensures { result ≡ wrapper_of (plain head.now) }
{
    if is_the("FullForm", head) {
        Some(Form::Full)
    } else if is_the("InputForm", head) {
        Some(Form::Input)
    } else {
        None
    }
}

/// The answer line of a value, where it has one: a silent cell has none, nor has the value `Null`.
pub(crate) fn answer_of(
    alloc: Global,
    silent: bool,
    number: u128,
    form: Form,
    value: &Expr,
    kept: &Unwrapped,
) -> Result<Option<String>, Memory>
    requires { unwrapped_of kept.now ≡ unwrapped (plain value.now) }
    ensures { IfOk result (λ answer. lines_of (option_map string_bytes answer)
        ≡ answer_lines silent number form (plain value.now)) }
{
    if silent || is_the("Null", value) {
        return Ok(None);
    }
    let line = answer_line(alloc, number, form, kept)?;
    Ok(Some(line))
}

/// The answer line of a value.
fn answer_line(alloc: Global, number: u128, form: Form, value: &Unwrapped) -> Result<String, Memory>
    ensures { IfOk result (λ text. string_bytes text ≡ answer_line number form (unwrapped_of value.now)) }
{
    let label = label(value.wrapper);
    let text = written(alloc, form_of(value.wrapper, form), &value.kept)?;
    Ok(format!(in alloc; "Out[{number}]{label}{text}")?)
}

fn label(wrapper: Option<Form>) -> &'static str
    ensures { result.now ≡ label wrapper }
{
    match wrapper {
        None => "= ",
        Some(Form::Full) => "//FullForm= ",
        Some(Form::Input) => "//InputForm= ",
    }
}

fn form_of(wrapper: Option<Form>, form: Form) -> Form
    ensures { result ≡ form_of wrapper form }
{
    match wrapper {
        None => form,
        Some(own) => own,
    }
}

fn written(alloc: Global, form: Form, value: &Expr) -> Result<String, Memory>
    ensures { IfOk result (λ text. string_bytes text ≡ written form (plain value.now)) }
{
    match form {
        Form::Input => input_form(alloc, value),
        Form::Full => full_form(alloc, value),
    }
}

/// The items, and behind them the item of a budget's end and the answer, where there are such, each with a line feed.
pub(crate) fn lines_of(
    alloc: Global,
    items: &[Item],
    last: Option<String>,
    answer: Option<String>,
) -> Result<String, Memory>
    ensures { IfOk result (λ text. string_bytes text
        ≡ lines (items.now ++ lines_of (option_map string_bytes last) ++ lines_of (option_map string_bytes answer))) }
{
    let mut text = lines_of_items(alloc, items)?;
    push_some(&mut text, last)?;
    push_some(&mut text, answer)?;
    Ok(text)
}

fn lines_of_items(alloc: Global, items: &[Item]) -> Result<String, Memory>
    ensures { IfOk result (λ text. string_bytes text ≡ lines items.now) }
{
    let mut text = String::new(alloc);
    for item in items {
        push_line(&mut text, item.text())?;
    }
    Ok(text)
}

fn push_some(text: &mut String, line: Option<String>) -> Result<(), Memory>
    ensures { OnOk result
        (string_bytes text.new ≡ string_bytes text.old ++ lines (lines_of (option_map string_bytes line))) }
{
    match line {
        None => Ok(()),
        Some(line) => push_line(text, line.as_str()),
    }
}

fn push_line(text: &mut String, line: &str) -> Result<(), Memory>
    ensures { OnOk result (string_bytes text.new ≡ string_bytes text.old ++ line.now ++ 10 ∷ []) }
{
    text.push_str(line)?;
    text.push('\n')?;
    Ok(())
}
