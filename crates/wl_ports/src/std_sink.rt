//! Standard output and standard error: a part of the trusted edge.
ghost use Rattle.std.specs.Prelude.{None, refl};

use crate::ports::{Failed, Sink};
use std::io::{Stderr, Stdout, Write};

#[derive(Drop)]
enum Output {
    Out(Stdout),
    Err(Stderr),
}

/// Standard output or standard error. It tells neither what it holds nor whether it is flushed.
/// Any error of the system counts as a fault, and so does a write that takes nothing of a non-empty piece.
#[derive(Drop)]
pub struct StdSink<'a> {
    output: Output,
    faults: u64,
    rt: &'a HostRuntime,
}

impl<'a> StdSink<'a> {
    /// Standard output.
    pub fn out(rt: &'a HostRuntime) -> StdSink<'a> {
        StdSink {
            output: Output::Out(rt.stdout()),
            faults: 0,
            rt,
        }
    }

    /// Standard error.
    pub fn err(rt: &'a HostRuntime) -> StdSink<'a> {
        StdSink {
            output: Output::Err(rt.stderr()),
            faults: 0,
            rt,
        }
    }
}

impl Sink for StdSink<'_> {
    ghost held = { λ s. None };

    ghost faults = { λ s. s.faults };

    ghost flushed = { λ s. None };

    fn write(&mut self, piece: &[u8]) -> Result<usize, Failed> {
        let answer = match &mut self.output {
            Output::Out(out) => out.write(piece),
            Output::Err(err) => err.write(piece),
        };
        match answer {
            Ok(count) if count > 0 || piece.is_empty() => Ok(count),
            _ => {
                self.faults = self.faults.saturating_add(1);
                Err(Failed)
            }
        }
    }

    fn flush(&mut self) -> Result<(), Failed> {
        let answer = match &mut self.output {
            Output::Out(out) => out.flush(),
            Output::Err(err) => err.flush(),
        };
        match answer {
            Ok(()) => Ok(()),
            Err(_) => {
                self.faults = self.faults.saturating_add(1);
                Err(Failed)
            }
        }
    }

    ghost tells_flushed = { λ s. refl };
}
