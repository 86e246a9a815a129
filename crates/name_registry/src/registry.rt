ghost use Rattle.std.specs.Prelude.{◌≡◌, ◌≤◌, ℕ, List, length, OnOk, OnErr};
ghost use Rattle.std.specs.Ordering.{nat_cmp};
ghost use Rattle.std.specs.Cmp.Lexicographic.{slice_cmp};
ghost use Rattle.std.specs.FinMap as map;
ghost use Rattle.name_registry.specs.Names.{unless};

use crate::counts::{one_less, one_more};
use memory_refusal::NoMemory;
use std::alloc::Global;
use std::collections::BTreeMap;
use std::marker::Model;

/// Process numbers by name, and how many names each process has.
#[derive(Drop)]
pub struct Registry {
    alloc: Global,
    numbers: BTreeMap<Vec<u8>, u64>,
    counts: BTreeMap<u64, u64>,
}

impl Model for Registry {
    ghost use Rattle.std.specs.Prelude.{ℕ};
    ghost use Rattle.std.specs.Ordering.{nat_cmp};
    ghost use Rattle.std.specs.Cmp.Lexicographic.{slice_cmp};
    ghost use Rattle.std.specs.FinMap as map;
    ghost use Rattle.std.specs.Coded.{coded_ℕ, coded_list};
    ghost use Rattle.std.specs.BTreeMap.{IsOrdered};
    ghost use Rattle.name_registry.specs.Names.{Names, named, name_cmp};
    ghost use Rattle.name_registry.specs.Counts.{AreCounts};

    ghost Value = { Names };

    ghost coded = { map.code (coded_list coded_ℕ) coded_ℕ };

    ghost view = { λ a. map.from_entries (named a.numbers.entries) };

    ghost invariant = { λ a. IsOrdered name_cmp a.numbers × AreCounts a.counts a.numbers.entries };
}

impl Registry {
    /// A registry without names. It takes no memory yet.
    pub fn new(alloc: Global) -> Registry
        ensures { result ≡ map.empty }
    {
        Registry {
            alloc,
            numbers: BTreeMap::new(alloc),
            counts: BTreeMap::new(alloc),
        }
    }

    /// Puts a process under a name of 1 to 255 bytes, in place of an earlier one. `NoMemory` comes
    /// for want of memory alone, and then the registry is as it was.
    pub fn put(&mut self, name: &[u8], pid: u64) -> Result<(), NoMemory>
        requires some { 1 ≤ length name.now }
        requires short { length name.now ≤ 255 }
        ensures ok { OnOk result (self.new ≡ map.insert self.old name.now pid) }
        ensures err { OnErr result (self.new ≡ self.old) }
    {
        let name = Vec::from_slice(self.alloc, name)?;
        // A map's length is below 2^63, and no count is above it.
        let _ = self.numbers.len();
        one_more(&mut self.counts, pid)?;
        match self.numbers.insert(name, pid) {
            Ok(earlier) => {
                one_less(&mut self.counts, earlier);
                Ok(())
            }
            Err(refused) => {
                one_less(&mut self.counts, Some(pid));
                Err(NoMemory::from(refused))
            }
        }
    }

    /// The number of the process under a name; None exactly where no process stands under it.
    pub fn get(&self, name: &[u8]) -> Option<u64>
        ensures { result ≡ map.get self.now name.now }
    {
        self.numbers.get(name).copied()
    }

    /// Takes a name out, if it is there.
    pub fn remove(&mut self, name: &[u8])
        ensures { self.new ≡ map.remove self.old name.now }
    {
        let number = self.numbers.remove(name);
        one_less(&mut self.counts, number);
    }

    /// Takes out the names of a process, and no others.
    pub fn remove_process(&mut self, pid: u64)
        ensures { (name : List ℕ) → map.get self.new name ≡ unless pid (map.get self.old name) }
    {
        match self.counts.remove(&pid) {
            Some(_) => {
                self.numbers.retain(|_, number| *number != pid);
            }
            None => {}
        }
    }
}
