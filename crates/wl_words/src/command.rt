//! The command line, as `clap` is told of it.
ghost use Rattle.std.specs.Prelude.{◌≡◌, IfOk, Some, codes, false};
ghost use Rattle.clap.specs.Words.{app_of, rule_of};
ghost use Rattle.wl_words.specs.Command.{bare, command, option};

use clap::{Arg, Command};
use std::alloc::Global;
use wl_ports::Memory;

/// An option with one value, which its id names.
fn option<'a>(alloc: Global, name: &'a str) -> Arg<'a>
    ensures rule { rule_of result ≡ option name.now }
    ensures local { result.global ≡ false }
{
    Arg::new(alloc, name).long(name)
}

/// A command without arguments. Nothing in it asks for help or for a version.
fn bare<'a>(alloc: Global) -> Command<'a>
    ensures { app_of result ≡ bare }
{
    Command::new(alloc, "wl")
        .no_binary_name(true)
        .disable_help_flag(true)
        .disable_version_flag(true)
}

/// The command with its four options and the name of a file.
pub(crate) fn command<'a>(alloc: Global) -> Result<Command<'a>, Memory>
    ensures { IfOk result (λ c. app_of c ≡ command) }
{
    let command = bare(alloc)
        .arg(option(alloc, "steps"))?
        .arg(option(alloc, "total"))?
        .arg(option(alloc, "form"))?
        .arg(option(alloc, "demo"))?
        .arg(Arg::new(alloc, "file"))?;
    Ok(command)
}
