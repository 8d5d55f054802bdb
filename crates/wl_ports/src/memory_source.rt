//! A source in memory.
ghost use Rattle.std.specs.Prelude.{◌≡◌, ◌≢◌, ◌+◌, ◌-◌, ◌^◌, ◌<◌, ◌≤◌, ◌++◌, ◌↔◌, ◌⊎◌, ℕ, Bool, true, false, List, [], length, take, drop, min, replicate, Contains, IsTrue, IsErr, IfOk, MatchResult, Option, Some, None, option_map, option_copied, string_bytes};
ghost use Rattle.std.specs.Io.{ReadsAtMost};
ghost use Rattle.std.specs.Io.KnownBytes.{ReadConsumes};
ghost use Rattle.wl_ports.specs.Causes.{HasCause, next_count};
ghost use Rattle.wl_ports.specs.Ports.{IsCounted};
ghost use Rattle.wl_ports.specs.Memory.{Served, next_call, served_failed, served_read, served_opened};
ghost use Rattle.wl_ports.specs.Rest.{rest_of};

use crate::calls::{after, is_listed};
use crate::memory::Memory;
use crate::ports::{Failed, Source};
use std::alloc::Global;
use std::marker::Model;

/// The bytes that are left: those of a text from a place on, or equal ones.
#[derive(Drop)]
enum Rest {
    Given(Vec<u8>, usize),
    Equal(u8, u64),
}

/// Gives as many bytes as there is room for and as are left.
fn give(rest: &mut Rest, into: &mut [u8]) -> usize
    ensures count { result ≡ min (length into.new) (length (rest_of rest.old)) }
    ensures front { take result into.new ≡ take result (rest_of rest.old) }
    ensures left { rest_of rest.new ≡ drop result (rest_of rest.old) }
{
    match rest {
        Rest::Given(bytes, at) => {
            let from = (*at).min(bytes.len());
            let count = into.len().min(bytes.len() - from);
            into[..count].copy_from_slice(&bytes[from..from + count]);
            *at = from + count;
            count
        }
        Rest::Equal(byte, count) => {
            let most = if *count < into.len() as u64 {
                *count as usize
            } else {
                into.len()
            };
            into[..most].fill(*byte);
            *count -= most as u64;
            most
        }
    }
}

/// A source in memory. It serves one name.
#[derive(Drop)]
pub struct MemorySource {
    name: Option<String>,
    rest: Rest,
    piece: usize,
    fails: Vec<u64>,
    calls: u128,
    faults: u64,
    hits: u64,
    strays: u64,
}

impl Model for MemorySource {
    ghost use Rattle.std.specs.Prelude.{◌≤◌, option_map, string_bytes};
    ghost use Rattle.wl_ports.specs.Memory.{Served};

    ghost Value = { Served };

    ghost use Rattle.wl_ports.specs.Rest.{rest_of};

    ghost view = { λ s. record {
      left = rest_of s.rest;
      name = option_map string_bytes s.name;
      piece = s.piece;
      fails = s.fails.items;
      calls = s.calls;
      faults = s.faults;
      hits = s.hits;
      strays = s.strays;
    } };

    ghost invariant = { λ s. 1 ≤ s.piece };
}

impl MemorySource {
    /// A source that serves this name, or standard input where there is none, and gives these bytes, at most `piece` of them a read.
    /// Its opens and reads are numbered from 0, and those whose numbers are in `fails` fail.
    pub fn new(
        alloc: Global,
        name: Option<&str>,
        bytes: &[u8],
        piece: usize,
        fails: &[u64],
    ) -> Result<MemorySource, Memory>
        requires { 1 ≤ piece }
        ensures { IfOk result (λ s. s ≡ record {
          left = bytes.now;
          name = option_copied name.entry;
          piece = piece;
          fails = fails.now;
          calls = 0;
          faults = 0;
          hits = 0;
          strays = 0;
        }) }
    {
        let name = match name {
            None => None,
            Some(text) => Some(String::from_str(alloc, text)?),
        };
        Ok(MemorySource {
            name,
            rest: Rest::Given(bytes.to_vec(alloc)?, 0),
            piece,
            fails: fails.to_vec(alloc)?,
            calls: 0,
            faults: 0,
            hits: 0,
            strays: 0,
        })
    }

    /// Standard input that holds `count` times one byte, of which no call fails.
    pub fn repeat(alloc: Global, byte: u8, count: u64) -> Result<MemorySource, Memory>
        ensures { IfOk result (λ s. s ≡ record {
          left = replicate count byte;
          name = None;
          piece = usize.MAX;
          fails = [];
          calls = 0;
          faults = 0;
          hits = 0;
          strays = 0;
        }) }
    {
        Ok(MemorySource {
            name: None,
            rest: Rest::Equal(byte, count),
            piece: usize::MAX,
            fails: Vec::new(alloc),
            calls: 0,
            faults: 0,
            hits: 0,
            strays: 0,
        })
    }

    /// How often the served name was opened, up to the counter's last value.
    pub fn hits(&self) -> u64
        ensures { result ≡ self.now.hits }
    {
        self.hits
    }

    /// How often another name was asked for, up to the counter's last value.
    pub fn strays(&self) -> u64
        ensures { result ≡ self.now.strays }
    {
        self.strays
    }
}

fn is_same(served: &Option<String>, asked: Option<&str>) -> bool
    ensures { IsTrue result ↔ (option_copied asked.entry ≡ option_map string_bytes served.now) }
{
    match (served, asked) {
        (None, None) => true,
        (Some(served), Some(asked)) => served.as_str() == asked,
        (Some(_), None) => false,
        (None, Some(_)) => false,
    }
}

impl Source for MemorySource {
    ghost left = { λ s. Some s.left };

    ghost faults = { λ s. s.faults };

    ghost served = { λ s. s.name };

    ghost hits = { λ s. s.hits };

    ghost strays = { λ s. s.strays };

    fn open(&mut self, name: Option<&str>) -> Result<(), Failed>
        ensures cause { HasCause self.old.faults self.new.faults result }
        ensures answer { IsErr result ↔ (Contains self.old.fails self.old.calls ⊎ (option_copied name.entry ≢ self.old.name)) }
        ensures count { MatchResult result (λ _. self.new.faults ≡ self.old.faults) (λ _. self.new.faults ≡ next_count self.old.faults) }
        ensures opened { IsCounted self.old.name (option_copied name.entry) self.old.hits self.old.strays self.new.hits self.new.strays result }
        ensures same { self.new ≡ served_opened self.old self.new }
    {
        let is_failing = is_listed(&self.fails, self.calls);
        self.calls = after(self.calls);
        let is_served = is_same(&self.name, name);
        if is_served {
            self.hits = self.hits.saturating_add(1);
        } else {
            self.strays = self.strays.saturating_add(1);
        }
        if is_failing || !is_served {
            self.faults = self.faults.saturating_add(1);
            return Err(Failed);
        }
        Ok(())
    }

    fn read(&mut self, into: &mut [u8]) -> Result<usize, Failed>
        ensures cause { HasCause self.old.faults self.new.faults result }
        ensures bound { ReadsAtMost result into.new }
        ensures bytes { ReadConsumes (Some self.old.left) (Some self.new.left) result into.new }
        ensures answer { IsErr result ↔ Contains self.old.fails self.old.calls }
        ensures after { MatchResult result
            (λ n. (n ≡ min self.old.piece (min (length into.new) (length self.old.left))) × (self.new ≡ served_read self.old n))
            (λ _. self.new ≡ served_failed self.old) }
    {
        let is_failing = is_listed(&self.fails, self.calls);
        self.calls = after(self.calls);
        if is_failing {
            self.faults = self.faults.saturating_add(1);
            return Err(Failed);
        }
        let most = self.piece.min(into.len());
        Ok(give(&mut self.rest, &mut into[..most]))
    }
}
