//! The outside: what is read from, and what is written to.
ghost use Rattle.std.specs.Prelude.{◌≡◌, ◌≢◌, ◌+◌, ◌≤◌, ◌<◌, ◌++◌, ℕ, Bool, List, length, take, Option, IfOk, OnOk, OnErr, IsSome, IfSome, is_some, option_map, option_copied};
ghost use Rattle.std.specs.Io.{ReadsAtMost, WritesAtMost};
ghost use Rattle.std.specs.Io.KnownBytes.{ReadConsumes, WriteAppends, Appends};
ghost use Rattle.wl_ports.specs.Causes.{HasCause};
ghost use Rattle.wl_ports.specs.Ports.{IsCounted, flushed_after, flushed_by};

/// A call of a source or a sink that failed.
#[derive(Drop, Debug, Clone, Copy, PartialEq, Eq)]
pub struct Failed;

/// Where bytes come from.
pub trait Source {
    /// The bytes that are left, where it tells them.
    ghost left: { Self → Option (List ℕ) };

    /// How often it failed.
    ghost faults: { Self → ℕ };

    /// The name that it serves, `None` for standard input; how often that was opened, and how often another name was.
    /// These count where it tells its bytes.
    ghost served: { Self → Option (List ℕ) };

    ghost hits: { Self → ℕ };

    ghost strays: { Self → ℕ };

    /// Opens the named file, or standard input where there is no name.
    fn open(&mut self, name: Option<&str>) -> Result<(), Failed>
        ensures cause { HasCause (faults self.old) (faults self.new) result }
        ensures left { left self.new ≡ left self.old }
        ensures served { served self.new ≡ served self.old }
        ensures counted { IsSome (left self.old) →
            IsCounted (served self.old) (option_copied name.entry) (hits self.old) (strays self.old) (hits self.new) (strays self.new) result };

    /// The next bytes, as many as were put to the front of the buffer; none at the end.
    fn read(&mut self, into: &mut [u8]) -> Result<usize, Failed>
        ensures cause { HasCause (faults self.old) (faults self.new) result }
        ensures bound { ReadsAtMost result into.new }
        ensures bytes { ReadConsumes (left self.old) (left self.new) result into.new }
        ensures served { served self.new ≡ served self.old }
        ensures hits { hits self.new ≡ hits self.old }
        ensures strays { strays self.new ≡ strays self.old };
}

/// Where bytes go to.
pub trait Sink {
    /// The bytes that it holds, where it tells them.
    ghost held: { Self → Option (List ℕ) };

    /// How often it failed.
    ghost faults: { Self → ℕ };

    /// Whether it is flushed, where it tells its bytes.
    ghost flushed: { Self → Option Bool };

    /// How many bytes of the piece's front were taken, at least one of a piece that has any.
    fn write(&mut self, piece: &[u8]) -> Result<usize, Failed>
        ensures cause { HasCause (faults self.old) (faults self.new) result }
        ensures bound { WritesAtMost result piece.now }
        ensures bytes { WriteAppends (held self.old) (held self.new) result piece.now }
        ensures takes { IfOk result (λ n. 0 < length piece.now → 0 < n) }
        ensures flushed { flushed self.new ≡ flushed_after result (flushed self.old) };

    /// Passes on what was taken.
    fn flush(&mut self) -> Result<(), Failed>
        ensures cause { HasCause (faults self.old) (faults self.new) result }
        ensures bytes { held self.new ≡ held self.old }
        ensures flushed { flushed self.new ≡ flushed_by result (flushed self.old) };

    ghost tells_flushed: { (s : Self) → is_some (held s) ≡ is_some (flushed s) };
}
