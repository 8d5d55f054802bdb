//! A sink in memory.
ghost use Rattle.std.specs.Prelude.{◌≡◌, ◌≤◌, ◌↔◌, true, false, [], length, take, IsErr, IfOk, MatchResult, Some, refl};
ghost use Rattle.wl_ports.specs.Causes.{HasCause};
ghost use Rattle.wl_ports.specs.Memory.{Kept, WriteFails, FlushFails, kept_failed, kept_written, kept_flushed};

use crate::buffer::put;
use crate::calls::{after, is_listed};
use crate::memory::Memory;
use crate::ports::{Failed, Sink};
use std::alloc::Global;
use std::marker::Model;

/// A sink in memory. It takes each piece whole, as long as there is room.
#[derive(Drop)]
pub struct MemorySink {
    buffer: Vec<u8>,
    len: usize,
    fails: Vec<u64>,
    calls: u128,
    faults: u64,
    flushed: bool,
}

impl Model for MemorySink {
    ghost Value = { Kept };

    ghost view = { λ s. record {
      bytes = take s.len s.buffer.items;
      room = length s.buffer.items;
      fails = s.fails.items;
      calls = s.calls;
      faults = s.faults;
      flushed = s.flushed;
    } };

    ghost invariant = { λ s. s.len ≤ length s.buffer.items };
}

impl MemorySink {
    /// An empty sink with room for so many bytes in all. Its writes and flushes are numbered from 0, and those whose numbers are in `fails` fail.
    pub fn new(alloc: Global, room: usize, fails: &[u64]) -> Result<MemorySink, Memory>
        ensures { IfOk result (λ s. s ≡ record { bytes = []; room = room; fails = fails.now; calls = 0; faults = 0; flushed = false }) }
    {
        Ok(MemorySink {
            buffer: Vec::from_elem(alloc, 0u8, room)?,
            len: 0,
            fails: fails.to_vec(alloc)?,
            calls: 0,
            faults: 0,
            flushed: false,
        })
    }

    /// The bytes that were written, in order.
    pub fn bytes(&self) -> &[u8]
        ensures { result.now ≡ self.now.bytes }
    {
        &self.buffer[..self.len]
    }

    /// Whether a flush came after the last byte.
    pub fn flushed(&self) -> bool
        ensures { result ≡ self.now.flushed }
    {
        self.flushed
    }
}

impl Sink for MemorySink {
    ghost held = { λ s. Some s.bytes };

    ghost faults = { λ s. s.faults };

    ghost flushed = { λ s. Some s.flushed };

    fn write(&mut self, piece: &[u8]) -> Result<usize, Failed>
        ensures cause { HasCause self.old.faults self.new.faults result }
        ensures answer { IsErr result ↔ WriteFails self.old (length piece.now) }
        ensures after { MatchResult result
            (λ n. (n ≡ length piece.now) × (self.new ≡ kept_written self.old piece.now))
            (λ _. self.new ≡ kept_failed self.old) }
    {
        let is_failing = is_listed(&self.fails, self.calls);
        self.calls = after(self.calls);
        if is_failing || self.buffer.len() - self.len < piece.len() {
            self.faults = self.faults.saturating_add(1);
            return Err(Failed);
        }
        put(&mut self.buffer, self.len, piece);
        self.len += piece.len();
        self.flushed = self.flushed && piece.is_empty();
        Ok(piece.len())
    }

    fn flush(&mut self) -> Result<(), Failed>
        ensures cause { HasCause self.old.faults self.new.faults result }
        ensures answer { IsErr result ↔ FlushFails self.old }
        ensures after { MatchResult result (λ _. self.new ≡ kept_flushed self.old true) (λ _. self.new ≡ kept_failed self.old) }
    {
        let is_failing = is_listed(&self.fails, self.calls);
        self.calls = after(self.calls);
        if is_failing {
            self.faults = self.faults.saturating_add(1);
            return Err(Failed);
        }
        self.flushed = true;
        Ok(())
    }

    ghost tells_flushed = { λ s. refl };
}
