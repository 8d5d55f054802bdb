//! The words are read by `clap`, and the values of its matches by the product.
ghost use Rattle.std.specs.Prelude.{◌≡◌, IfOk, map, option_copied, option_map, string_bytes};
ghost use Rattle.clap.specs.Words.{found_of, rows_of};
ghost use Rattle.wl_words.specs.Words.{form_from, steps_from, task_from, task_of, total_from, words_of, words_of_matches, words_read};

use crate::command::command;
use crate::line::{Form, Task, Words};
use crate::number::number;
use clap::ArgMatches;
use clap::error::ErrorKind;
use std::alloc::Global;
use wl_ports::Memory;

/// The steps of a cell where they aren't given.
const STEPS: u64 = 10_000_000;

/// The greatest number of steps that may be given, of a cell and of all cells together.
const GREATEST_STEPS: u64 = 1_000_000_000_000;

/// The greatest number of cells of a demonstration.
const GREATEST_DEMO: u64 = 20_000;

fn steps_from(text: Option<&str>) -> Option<u64>
    ensures { result ≡ steps_from (option_copied text.entry) }
{
    match text {
        None => Some(STEPS),
        Some(text) => number(text, GREATEST_STEPS),
    }
}

fn total_from(text: Option<&str>) -> Option<Option<u64>>
    ensures { result ≡ total_from (option_copied text.entry) }
{
    match text {
        None => Some(None),
        Some(text) => Some(Some(number(text, GREATEST_STEPS)?)),
    }
}

fn form_from(text: Option<&str>) -> Option<Form>
    ensures { result ≡ form_from (option_copied text.entry) }
{
    match text {
        None | Some("input") => Some(Form::Input),
        Some("full") => Some(Form::Full),
        Some(_) => None,
    }
}

fn task_from<'a>(demo: Option<&str>, file: Option<&'a str>) -> Option<Task<'a>>
    ensures { option_map task_of result ≡ task_from (option_copied demo.entry) (option_copied file.entry) }
{
    match (demo, file) {
        (None, None) => Some(Task::StandardInput),
        (None, Some(name)) => Some(Task::File(name)),
        (Some(text), None) => Some(Task::Demo(number(text, GREATEST_DEMO)?)),
        (Some(_), Some(_)) => None,
    }
}

fn words_of_matches<'a>(matches: &ArgMatches<'a>) -> Option<Words<'a>>
    ensures { option_map words_of result ≡ words_of_matches (rows_of (found_of matches.now)) }
{
    let steps = steps_from(matches.get_str("steps"))?;
    let total = total_from(matches.get_str("total"))?;
    let form = form_from(matches.get_str("form"))?;
    let task = task_from(matches.get_str("demo"), matches.get_str("file"))?;
    Some(Words {
        steps,
        total,
        form,
        task,
    })
}

/// What the words after the program's name ask for, or None where they are a wrong use.
pub fn read<'a>(alloc: Global, words: &'a [String]) -> Result<Option<Words<'a>>, Memory>
    ensures { IfOk result (λ read. option_map words_of read ≡ words_read (map string_bytes words.now)) }
{
    let command = command(alloc)?;
    match command.try_get_matches_from(words) {
        Ok(matches) => Ok(words_of_matches(&matches)),
        Err(error) => match error.kind() {
            ErrorKind::OutOfMemory => Err(Memory),
            _ => Ok(None),
        },
    }
}
