//! The names that an evaluation read.
ghost use Rattle.std.specs.Prelude.{◌≡◌, ◌≤◌, [], ◌∷◌, length, slice_get, take, OnOk, OnErr};
ghost use Rattle.wl_stamps.specs.Composition.{IsOneVersionEach};
ghost use Rattle.wl_stamps.specs.Reads.{noted, version_of};

use indexmap::IndexMap;
use std::alloc::Global;
use std::marker::Model;
use wl_ports::Memory;

/// Names in the order in which they were read, each once, by their indexes in the store, with the version of the first time.
#[derive(Drop)]
pub struct Reads {
    versions: IndexMap<u64, u64>,
}

impl Model for Reads {
    ghost use Rattle.std.specs.Prelude.{List};
    ghost use Rattle.wl_stamps.specs.Reads.{Read};

    ghost Value = { List Read };

    ghost view = { λ r. r.versions.entries };
}

impl Reads {
    /// No name.
    pub fn new(alloc: Global) -> Reads
        ensures { result ≡ [] }
    {
        Reads {
            versions: IndexMap::new(alloc),
        }
    }

    /// Notes that the name of this index was read at this version. One that was noted before keeps its first version.
    #[tactic(auto, using(crate::proofs::Noting::noted_before))]
    pub fn note(&mut self, index: u64, version: u64) -> Result<(), Memory>
        ensures ok { OnOk result (self.new ≡ noted self.old (index, version)) }
        ensures err { OnErr result (self.new ≡ self.old) }
    {
        if let Some(_) = self.version_of(index) {
            return Ok(());
        }
        self.versions.insert(index, version)?;
        Ok(())
    }

    /// The version with which a name was read first.
    pub(crate) fn version_of(&self, index: u64) -> Option<u64>
        ensures { result ≡ version_of index self.now }
    {
        self.versions.get(&index).copied()
    }

    pub(crate) fn len(&self) -> usize
        ensures count { result ≡ length self.now }
        ensures once { IsOneVersionEach self.now }
    {
        self.versions.len()
    }

    /// The k-th name and its version.
    pub(crate) fn at(&self, k: usize) -> Option<(u64, u64)>
        ensures { result ≡ slice_get self.now k }
    {
        match self.versions.get_index(k) {
            Some((index, version)) => Some((*index, *version)),
            None => None,
        }
    }

    /// Takes away what was noted behind the first n names.
    pub(crate) fn cut(&mut self, n: usize)
        ensures { self.new ≡ take n self.old }
    {
        self.versions.truncate(n);
    }
}
