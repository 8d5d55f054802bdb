//! The program `wl`: the real source and sinks, the top call, and its status.
#![tactic(auto)]

mod play;
#[cfg(test)]
mod tests;

use crate::play::{Unread, play};
use std::env;
use std::io::ErrorKind;
use std::process::ExitCode;
use wl_ports::{StdSink, StdSource};

/// The words after the program's name.
fn words(rt: &HostRuntime) -> Result<Vec<String>, Unread> {
    let all = match env::args(rt) {
        Ok(all) => all,
        Err(error) => {
            return Err(if error.kind() == ErrorKind::OutOfMemory {
                Unread::Memory
            } else {
                Unread::NotText
            });
        }
    };
    match all.skip(1).collect(rt.alloc()) {
        Ok(words) => Ok(words),
        Err(_) => Err(Unread::Memory),
    }
}

fn main(rt: HostRuntime) -> ExitCode {
    let mut source = StdSource::new(&rt);
    let mut out = StdSink::out(&rt);
    let mut err = StdSink::err(&rt);
    play(rt.alloc(), words(&rt), &mut source, &mut out, &mut err)
}
