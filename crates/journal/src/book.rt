ghost use Rattle.std.specs.Prelude.{◌≡◌, ◌<◌, ◌↔◌, [], length, slice_get, IsTrue, OnOk};
ghost use Rattle.std.specs.Option.{option_copied};
ghost use Rattle.world_rules.specs.Book.{IsBlank, KeepsAll, HasRoom, AddsEntry, AddsBirth, AddsEnd};

use memory_refusal::NoMemory;
use std::alloc::Global;
use std::marker::Model;
use world_rules::{Birth, Ended, Entry};

/// What happened in a run: its entries, its births and its ends, each in order.
#[derive(Debug, Drop)]
pub struct Journal {
    entries: Vec<Entry>,
    births: Vec<Birth>,
    ends: Vec<Ended>,
}

impl Model for Journal {
    ghost use Rattle.std.specs.Prelude.{◌-◌, ◌≤◌, min, vec_len, vec_capacity};
    ghost use Rattle.world_rules.specs.Book.{Book};

    ghost Value = { Book };

    ghost view = { λ a. record {
      entries = a.entries.items;
      births = a.births.items;
      ends = a.ends.items;
      entry_room = vec_capacity a.entries - vec_len a.entries;
      birth_room = min (vec_capacity a.births) (vec_capacity a.ends) - vec_len a.births;
    } };

    ghost invariant = { λ a. (vec_len a.ends ≤ vec_len a.births) × (vec_len a.births ≤ vec_capacity a.ends) };
}

impl Journal {
    /// A journal in which nothing has happened. It takes no memory.
    pub fn new(alloc: Global) -> Journal
        ensures { IsBlank result }
    {
        Journal {
            entries: Vec::new(alloc),
            births: Vec::new(alloc),
            ends: Vec::new(alloc),
        }
    }

    /// Makes room for `n` more entries and `n` more births, with their ends. NoMemory leaves the
    /// lists as they were, and loses no room.
    pub fn reserve(&mut self, n: u32) -> Result<(), NoMemory>
        ensures room { OnOk result (HasRoom n self.new) }
        ensures kept { KeepsAll self.old self.new }
    {
        let n = n as usize;
        self.entries.reserve(n)?;
        self.births.reserve(n)?;
        self.ends
            .reserve(n.saturating_add(self.births.len() - self.ends.len()))?;
        Ok(())
    }

    /// Records one entry, in a reserved place.
    pub fn add(&mut self, entry: Entry)
        requires { 0 < self.old.entry_room }
        ensures { AddsEntry self.old self.new entry }
    {
        self.entries.push_reserved(entry);
    }

    /// Records one birth, in a reserved place. It keeps the room of one end.
    pub fn born(&mut self, birth: Birth)
        requires { 0 < self.old.birth_room }
        ensures { AddsBirth self.old self.new birth }
    {
        self.births.push_reserved(birth);
    }

    /// Records one end, in the room that its birth kept.
    pub fn ended(&mut self, end: Ended)
        requires { length self.old.ends < length self.old.births }
        ensures { AddsEnd self.old self.new end }
    {
        self.ends.push_reserved(end);
    }

    /// How many entries there are.
    pub fn len(&self) -> u64
        ensures { result ≡ length self.now.entries }
    {
        self.entries.len() as u64
    }

    /// There is no entry.
    pub fn is_empty(&self) -> bool
        ensures { IsTrue result ↔ (self.now.entries ≡ []) }
    {
        self.entries.is_empty()
    }

    /// The entry of this place, from 0 on; None exactly past the last.
    pub fn get(&self, k: u64) -> Option<&Entry>
        ensures { option_copied result ≡ slice_get self.now.entries k }
    {
        self.entries.get(k as usize)
    }

    /// The entries in their order.
    pub fn entries(&self) -> &[Entry]
        ensures { result.now ≡ self.now.entries }
    {
        self.entries.as_slice()
    }

    /// The births in their order: process 1's start, and then one item for each spawn that was
    /// performed.
    pub fn births(&self) -> &[Birth]
        ensures { result.now ≡ self.now.births }
    {
        self.births.as_slice()
    }

    /// The ends in their order, each with the process's memory at its end.
    pub fn ends(&self) -> &[Ended]
        ensures { result.now ≡ self.now.ends }
    {
        self.ends.as_slice()
    }
}
