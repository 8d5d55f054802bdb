//! The cutting of bytes into cells, in pieces of any size.
ghost use Rattle.std.specs.Prelude.{◌≡◌, ◌+◌, ◌≤◌, ◌<◌, ◌^◌, [], ◌∷◌, true, false, length, take, drop, slice_index, if◌then◌else◌, IsTrue, IfOk, None};
ghost use Rattle.wl_scan.specs.Cells.{IsWithinCell, start, renewed, cut, ended, finished, remainder, text_of, shown, IsWithin};
ghost use Rattle.wl_scan.specs.Places.{is_end};
ghost use Rattle.wl_scan.specs.CellText.{cell_text};

use crate::lengths::blank_length;
use crate::place::Place;
use std::alloc::Global;
use std::marker::Model;
use wl_ports::{Memory, put};

/// The greatest number of bytes of a cell that are kept.
const CELL_LIMIT: usize = 131_072;

/// What a piece of the input gave: how many of its bytes were taken, and whether the last of them ended a cell.
#[derive(Clone, Copy, PartialEq, Eq, Debug)]
pub struct Fed {
    pub used: usize,
    pub cell: bool,
}

/// The bytes of a cell, or that it has more than 131,072.
#[derive(Clone, Copy, PartialEq, Eq, Debug)]
pub enum Cell<'a> {
    Bytes(&'a [u8]),
    TooLong,
}

/// Cuts the bytes that it is fed into cells, and keeps the present one.
#[derive(Drop)]
pub struct Cells {
    buffer: Vec<u8>,
    len: usize,
    is_long: bool,
    place: Place,
    taken: u64,
    told: bool,
}

impl Model for Cells {
    ghost use Rattle.std.specs.Prelude.{◌≡◌, ◌≤◌, length, take};
    ghost use Rattle.wl_scan.specs.Cells.{Cutting, IsCutting, cell_limit};

    ghost Value = { Cutting };

    ghost view = { λ c. record {
      taken = c.taken;
      place = c.place;
      kept = take c.len c.buffer.items;
      is_long = c.is_long;
      told = c.told;
    } };

    ghost invariant = { λ c. (length c.buffer.items ≡ cell_limit)
        × (c.len ≤ cell_limit)
        × IsCutting (record {
          taken = c.taken;
          place = c.place;
          kept = take c.len c.buffer.items;
          is_long = c.is_long;
          told = c.told;
        }) };
}

impl Cells {
    /// Takes the whole buffer for the present cell, so that no later call takes memory.
    pub fn new(alloc: Global) -> Result<Cells, Memory>
        ensures { IfOk result (λ cells. cells ≡ start) }
    {
        let buffer = Vec::from_elem(alloc, 0u8, CELL_LIMIT)?;
        Ok(Cells {
            buffer,
            len: 0,
            is_long: false,
            place: Place::BEGINNING,
            taken: 0,
            told: false,
        })
    }

    /// The number of bytes taken so far.
    pub fn taken(&self) -> u64
        ensures { result ≡ self.now.taken }
    {
        self.taken
    }

    /// Takes bytes up to and with the line feed that ends a cell, or all of them.
    pub fn feed(&mut self, bytes: &[u8]) -> Fed
        requires { self.old.taken + length bytes.now ≤ 2 ^ 62 }
        ensures after { self.new ≡ cut self.old (take result.used bytes.now) }
        ensures told { ended self.old (take result.used bytes.now) ≡ (if result.cell then shown self.new ∷ [] else []) }
        ensures cell { IsTrue result.cell → self.new.told ≡ true }
        ensures within { result.used ≤ length bytes.now }
        ensures all { result.cell ≡ false → result.used ≡ length bytes.now }
        ensures progress { 0 < length bytes.now → 0 < result.used }
    {
        if bytes.is_empty() {
            return Fed {
                used: 0,
                cell: false,
            };
        }
        self.renew();
        let blanks = self.skip_blanks(bytes);
        let used = blanks + self.take_run(&bytes[blanks..]);
        if used == bytes.len() {
            return Fed { used, cell: false };
        }
        self.end_cell();
        Fed {
            used: used + 1,
            cell: true,
        }
    }

    /// Ends the input: true exactly where what is left of it is a cell.
    pub fn finish(&mut self) -> bool
        ensures after { self.new ≡ finished self.old }
        ensures told { remainder self.old ≡ (if result then record { text = text_of self.new; line_feed = None } ∷ [] else []) }
        ensures cell { result ≡ self.new.told }
    {
        self.renew();
        self.told = self.place.is_rest();
        self.told
    }

    /// The cell that `feed` or `finish` has just told of.
    pub fn cell(&self) -> Cell<'_>
        requires { IsTrue self.now.told }
        ensures text { cell_text result ≡ text_of self.now }
        ensures short { IsWithinCell (cell_text result) }
    {
        if self.is_long {
            Cell::TooLong
        } else {
            Cell::Bytes(&self.buffer[..self.len])
        }
    }

    /// A cell that was told of is done with.
    fn renew(&mut self)
        ensures after { self.new ≡ renewed self.old }
        ensures taken { self.new.taken ≡ self.old.taken }
    {
        if self.told {
            self.len = 0;
            self.is_long = false;
            self.place = Place::BEGINNING;
            self.told = false;
        }
    }

    /// Passes over the blanks before a cell.
    fn skip_blanks(&mut self, bytes: &[u8]) -> usize
        requires room { self.old.taken + length bytes.now ≤ 2 ^ 62 }
        requires untold { self.old.told ≡ false }
        ensures within { result ≤ length bytes.now }
        ensures after { self.new ≡ cut self.old (take result bytes.now) }
        ensures none { ended self.old (take result bytes.now) ≡ [] }
        ensures taken { self.new.taken ≡ self.old.taken + result }
        ensures untold { self.new.told ≡ false }
        ensures behind { IsWithin self.new (drop result bytes.now) }
    {
        if self.len > 0 {
            return 0;
        }
        let blanks = blank_length(bytes);
        self.taken += blanks as u64;
        blanks
    }

    /// Takes the bytes up to the end of the cell, or all of them.
    fn take_run(&mut self, bytes: &[u8]) -> usize
        requires room { self.old.taken + length bytes.now ≤ 2 ^ 62 }
        requires untold { self.old.told ≡ false }
        requires within { IsWithin self.old bytes.now }
        ensures within { result ≤ length bytes.now }
        ensures after { self.new ≡ cut self.old (take result bytes.now) }
        ensures none { ended self.old (take result bytes.now) ≡ [] }
        ensures taken { self.new.taken ≡ self.old.taken + result }
        ensures untold { self.new.told ≡ false }
        ensures end { result < length bytes.now → is_end self.new.place (slice_index bytes.now result) ≡ true }
    {
        let (place, count) = self.place.run(bytes);
        let room = CELL_LIMIT - self.len;
        let kept = count.min(room);
        put(&mut self.buffer, self.len, &bytes[..kept]);
        self.len += kept;
        self.is_long |= room < count;
        self.place = place;
        self.taken += count as u64;
        count
    }

    /// Takes the line feed that ends the cell.
    fn end_cell(&mut self)
        requires room { self.old.taken < 2 ^ 62 }
        requires untold { self.old.told ≡ false }
        requires end { is_end self.old.place 10 ≡ true }
        ensures { self.new ≡ record self.old { taken = self.old.taken + 1; told = true } }
    {
        self.taken += 1;
        self.told = true;
    }
}
