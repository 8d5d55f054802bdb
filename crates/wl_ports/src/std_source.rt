//! Named files and standard input: a part of the trusted edge.
ghost use Rattle.std.specs.Prelude.{None};

use crate::ports::{Failed, Source};
use std::fs::File;
use std::io::{Read, Stdin};

#[derive(Drop)]
enum Input {
    Closed,
    Named(File),
    Standard(Stdin),
}

/// A named file or standard input. It tells neither its bytes nor the name that it serves.
/// Any error of the system counts as a fault, one that a signal caused among them; so does a read before the first `open`.
#[derive(Drop)]
pub struct StdSource<'a> {
    rt: &'a HostRuntime,
    input: Input,
    faults: u64,
}

impl<'a> StdSource<'a> {
    /// Opens nothing yet.
    pub fn new(rt: &'a HostRuntime) -> StdSource<'a> {
        StdSource {
            rt,
            input: Input::Closed,
            faults: 0,
        }
    }
}

impl Source for StdSource<'_> {
    ghost left = { λ s. None };

    ghost faults = { λ s. s.faults };

    ghost served = { λ s. None };

    ghost hits = { λ s. 0 };

    ghost strays = { λ s. 0 };

    fn open(&mut self, name: Option<&str>) -> Result<(), Failed> {
        match name {
            None => {
                self.input = Input::Standard(self.rt.stdin());
                Ok(())
            }
            Some(path) => match File::open(self.rt, path) {
                Ok(file) => {
                    self.input = Input::Named(file);
                    Ok(())
                }
                Err(_) => {
                    self.faults = self.faults.saturating_add(1);
                    Err(Failed)
                }
            },
        }
    }

    fn read(&mut self, into: &mut [u8]) -> Result<usize, Failed> {
        let answer = match &mut self.input {
            Input::Closed => None,
            Input::Named(file) => file.read(into).ok(),
            Input::Standard(input) => input.read(into).ok(),
        };
        match answer {
            Some(count) => Ok(count),
            None => {
                self.faults = self.faults.saturating_add(1);
                Err(Failed)
            }
        }
    }
}
