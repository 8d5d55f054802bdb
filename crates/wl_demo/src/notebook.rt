//! The notebook, made cell by cell.
ghost use Rattle.std.specs.Prelude.{◌≡◌, [], ◌∷◌, false, IfOk, OnErr, MatchBool, string_bytes};
ghost use Rattle.wl_demo.specs.Notebook.{next_state, notebook};

use crate::cell::push_cell;
use std::alloc::AllocError;
use std::marker::Model;

const MULTIPLIER: u64 = 1_103_515_245;

const INCREMENT: u64 = 12_345;

const MODULUS: u64 = 1 << 31;

/// What is left of a notebook. No cell is kept, so it takes no memory.
#[derive(Drop)]
pub struct Notebook {
    count: u32,
    given: u32,
    state: u32,
}

impl Model for Notebook {
    ghost use Rattle.std.specs.Prelude.{◌≡◌, ◌≤◌, ◌-◌, List};
    ghost use Rattle.wl_demo.specs.Notebook.{Bytes, cells_after, state_for};

    ghost Value = { List Bytes };

    ghost view = { λ b. cells_after b.count b.given (b.count - b.given) };

    ghost invariant = { λ b. (b.given ≤ b.count) × (b.state ≡ state_for b.count b.given) };
}

impl Notebook {
    /// The notebook with so many cells, none of them given.
    pub fn new(count: u32) -> Notebook
        ensures { result ≡ notebook count }
    {
        Notebook {
            count,
            given: 0,
            state: count,
        }
    }

    /// Puts the next cell in place of what stands in `line`, without a line feed; false where no cell is left. Where
    /// memory is wanting the cell can be asked for again.
    pub fn next(&mut self, line: &mut String) -> Result<bool, AllocError>
        ensures cell { IfOk result (λ found. MatchBool found (self.old ≡ string_bytes line.new ∷ self.new) (self.old ≡ [])) }
        ensures end { IfOk result (λ found. found ≡ false → self.new ≡ []) }
        ensures end_line { IfOk result (λ found. found ≡ false → string_bytes line.new ≡ []) }
        ensures err { OnErr result (self.new ≡ self.old) }
        ensures err_line { OnErr result (string_bytes line.new ≡ []) }
    {
        line.clear();
        if self.given == self.count {
            return Ok(false);
        }
        let state = next_state(self.state);
        let number = self.given + 1;
        match push_cell(line, number, state / 65_536) {
            Ok(()) => {
                self.given = number;
                self.state = state;
                Ok(true)
            }
            Err(fault) => {
                line.clear();
                Err(fault)
            }
        }
    }
}

fn next_state(state: u32) -> u32
    ensures { result ≡ next_state state }
{
    ((MULTIPLIER * u64::from(state) + INCREMENT) % MODULUS) as u32
}
