ghost use Rattle.std.specs.Prelude.{◌≡◌, ◌↔◌, ◌+◌, ◌<◌, None, IfOk, OnOk, OnErr, IsTrue, IsSome};
ghost use Rattle.std.specs.Bool.{OnTrue, OnFalse};
ghost use Rattle.std.specs.FinMap as map;

use host_port::Limits;
use memory_refusal::NoMemory;
use std::alloc::Global;
use std::collections::BTreeMap;
use std::marker::Model;

/// The configs of a process: limits by number.
#[derive(Drop)]
pub struct Configs {
    limits: BTreeMap<u64, Limits>,
    next: u64,
}

impl Model for Configs {
    ghost use Rattle.std.specs.Prelude.{◌≡◌, ◌≤◌, ℕ, None};
    ghost use Rattle.std.specs.Ordering.{nat_cmp};
    ghost use Rattle.std.specs.FinMap as map;
    ghost use Rattle.std.specs.BTreeMap as tree;
    ghost use Rattle.spawn_config.specs.Held.{Held, held_code};

    ghost Value = { Held };

    ghost coded = { held_code };

    ghost view = { λ a. record { limits = map.from_entries a.limits.entries; next = a.next } };

    ghost invariant = { λ a. (id : ℕ) → a.next ≤ id → tree.get nat_cmp a.limits id ≡ None };
}

impl Configs {
    /// No configs; the first one gets the number 0. It takes no memory yet.
    pub fn new(alloc: Global) -> Configs
        ensures limits { result.limits ≡ map.empty }
        ensures next { result.next ≡ 0 }
    {
        Configs {
            limits: BTreeMap::new(alloc),
            next: 0,
        }
    }

    /// Makes a config with these limits, and answers its number, which no config had before.
    ///
    /// `NoMemory` comes for want of memory, and where the number would be 2^64 - 1, after which
    /// there is none. Then the configs are as they were.
    pub fn create(&mut self, own: Limits) -> Result<u64, NoMemory>
        ensures number { IfOk result (λ id. id ≡ self.old.next) }
        ensures unused { map.get self.old.limits self.old.next ≡ None }
        ensures limits { OnOk result (self.new.limits ≡ map.insert self.old.limits self.old.next own) }
        ensures next { OnOk result (self.new.next ≡ self.old.next + 1) }
        ensures err { OnErr result (self.new ≡ self.old) }
    {
        let id = self.next;
        let next = id.checked_add(1).ok_or(NoMemory)?;
        self.limits.insert(id, own)?;
        self.next = next;
        Ok(id)
    }

    /// The limits of the config with this number, if it is there.
    pub fn get(&self, id: u64) -> Option<Limits>
        ensures limits { result ≡ map.get self.now.limits id }
        ensures below { IsSome result → id < self.now.next }
    {
        self.limits.get(&id).copied()
    }

    /// Gives the config with this number other limits; false exactly where it is not there, and
    /// then the configs are as they were.
    pub fn set(&mut self, id: u64, limits: Limits) -> bool
        ensures there { IsTrue result ↔ IsSome (map.get self.old.limits id) }
        ensures limits { OnTrue result (self.new.limits ≡ map.insert self.old.limits id limits) }
        ensures next { self.new.next ≡ self.old.next }
        ensures absent { OnFalse result (self.new ≡ self.old) }
    {
        if !self.limits.contains_key(&id) {
            return false;
        }
        match self.limits.insert(id, limits) {
            Ok(_) => true,
            Err(_) => unreachable!(),
        }
    }

    /// Takes out the config with this number; false exactly where it is not there, and then the
    /// configs are as they were.
    pub fn remove(&mut self, id: u64) -> bool
        ensures there { IsTrue result ↔ IsSome (map.get self.old.limits id) }
        ensures limits { self.new.limits ≡ map.remove self.old.limits id }
        ensures next { self.new.next ≡ self.old.next }
        ensures absent { OnFalse result (self.new ≡ self.old) }
    {
        self.limits.remove(&id).is_some()
    }
}
