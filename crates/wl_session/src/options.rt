//! How a session evaluates and shows.
ghost use Rattle.std.specs.Prelude.{◌≡◌, IfOk, option_map, string_bytes};
ghost use Rattle.wl_session.specs.Answers.{run_options};
ghost use Rattle.wl_session.specs.Line.{budget_item, is_by_total, last_items, left_of, steps_for};
ghost use Rattle.wl_session.specs.Shown.{lines_of};

use std::alloc::Global;
use wl_ports::Memory;

/// How a value is written that has no form of its own.
#[derive(Clone, Copy)]
pub enum Form {
    Input,
    Full,
}

/// The steps of each cell, the total of all cells together where it is given, and the form of the answers.
#[derive(Clone, Copy)]
pub struct Options {
    pub steps: u64,
    pub total: Option<u64>,
    pub form: Form,
}

/// The options of a run: 10,000,000 steps a cell, no total, and InputForm.
pub(crate) fn run_options() -> Options
    ensures { result ≡ run_options }
{
    Options {
        steps: 10_000_000,
        total: None,
        form: Form::Input,
    }
}

/// The steps that a cell may take.
pub(crate) fn steps_for(options: Options, total_left: Option<u64>) -> u64
    ensures { result ≡ steps_for options total_left }
{
    match total_left {
        None => options.steps,
        Some(left) => options.steps.min(left),
    }
}

/// Whether the total is what ends a cell.
fn is_by_total(options: Options, total_left: Option<u64>) -> bool
    ensures { result ≡ is_by_total options total_left }
{
    match total_left {
        None => false,
        Some(left) => left < options.steps,
    }
}

/// What is left of the total behind a cell.
pub(crate) fn left_of(total_left: Option<u64>, taken: u64) -> Option<u64>
    ensures { result ≡ left_of total_left taken }
{
    match total_left {
        None => None,
        Some(left) => Some(left.saturating_sub(taken)),
    }
}

/// The item of a budget's end, where it ended.
pub(crate) fn last_item(
    alloc: Global,
    options: Options,
    total_left: Option<u64>,
    is_budget: bool,
) -> Result<Option<String>, Memory>
    ensures { IfOk result (λ item. lines_of (option_map string_bytes item) ≡ last_items options total_left is_budget) }
{
    if !is_budget {
        return Ok(None);
    }
    let item = budget_item(alloc, options, total_left)?;
    Ok(Some(item))
}

/// The item of a budget's end.
fn budget_item(alloc: Global, options: Options, total_left: Option<u64>) -> Result<String, Memory>
    ensures { IfOk result (λ text. string_bytes text ≡ budget_item options (is_by_total options total_left)) }
{
    if is_by_total(options, total_left) {
        let total = match options.total {
            None => 0,
            Some(total) => total,
        };
        Ok(format!(in alloc; "General::total: Total step budget of {total} exceeded.")?)
    } else {
        let steps = options.steps;
        Ok(format!(in alloc; "General::steps: Step budget of {steps} exceeded.")?)
    }
}
