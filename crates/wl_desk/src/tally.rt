//! How often each message was shown.
ghost use Rattle.std.specs.Prelude.{◌≡◌, ◌<◌, [], OnOk, OnErr, string_bytes};
ghost use Rattle.wl_desk.specs.Desk.{count_of, counted};

use indexmap::IndexMap;
use std::alloc::Global;
use std::marker::Model;
use wl_ports::Memory;

/// How often each message was shown, by full names, in the order in which they were first shown.
#[derive(Drop)]
pub(crate) struct Tally {
    counts: IndexMap<String, u8>,
}

impl Model for Tally {
    ghost use Rattle.wl_desk.specs.Desk.{Counts};
    ghost use Rattle.wl_desk.specs.DeskCode.{counts_code};
    ghost use Rattle.wl_desk.specs.TallyInside.{counts_in};

    ghost Value = { Counts };

    ghost coded = { counts_code };

    ghost view = { counts_in };
}

impl Tally {
    pub(crate) fn new(alloc: Global) -> Tally
        ensures { result ≡ [] }
    {
        Tally {
            counts: IndexMap::new(alloc),
        }
    }

    pub(crate) fn clear(&mut self)
        ensures { self.new ≡ [] }
    {
        self.counts.clear();
    }

    /// How often the message of this full name was shown.
    pub(crate) fn count_of(&self, name: &str) -> u8
        ensures { result ≡ count_of name.now self.now }
    {
        self.counts.get(name).copied().unwrap_or(0)
    }

    /// Notes that it was shown once more.
    pub(crate) fn count(&mut self, name: String) -> Result<(), Memory>
        requires { count_of (string_bytes name) self.old < 255 }
        ensures ok { OnOk result (self.new ≡ counted (string_bytes name) self.old) }
        ensures err { OnErr result (self.new ≡ self.old) }
    {
        let count = self.count_of(name.as_str()) + 1;
        self.counts.insert(name, count)?;
        Ok(())
    }
}
