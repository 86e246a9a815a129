ghost use Rattle.std.specs.Prelude.{◌≡◌, ◌≢◌, ◌↔◌, ◌++◌, not, true, [], OnOk, OnErr, IsTrue, IsNone, IsSome, Contains, if◌then◌else◌, is_some};
ghost use Rattle.std.specs.Option.{option_to_list};
ghost use Rattle.std.specs.FinMap as map;
ghost use Rattle.link_signals.specs.Links.{ends, is_end};
ghost use Rattle.link_signals.specs.Fall.{IsFall, signals_of};

use crate::Signal;
use crate::fall::spread;
use crate::link_ends::ends;
use crate::pending::{is_fallen, refill};
use memory_refusal::NoMemory;
use std::alloc::Global;
use std::collections::{BTreeMap, VecDeque};
use std::marker::Model;

/// The links between processes, and what the last fall left.
#[derive(Drop)]
pub struct Links {
    processes: BTreeMap<u64, bool>,
    tags: BTreeMap<(u64, u64), u64>,
    first: Option<u64>,
    others: Vec<u64>,
    next: usize,
    pending: VecDeque<Signal>,
}

impl Model for Links {
    ghost use Rattle.std.specs.Prelude.{◌≡◌, ◌≤◌, ◌++◌, vec_capacity};
    ghost use Rattle.std.specs.VecDeque.{deque_capacity};
    ghost use Rattle.std.specs.BTreeMap.{btree_map_len};
    ghost use Rattle.std.specs.FinMap as map;
    ghost use Rattle.link_signals.specs.Links.{Net, net_code};
    ghost use Rattle.link_signals.specs.Fall.{members_of, signals_left};

    ghost Value = { Net };

    ghost coded = { net_code };

    ghost view = { λ a. record {
      processes = map.from_entries a.processes.entries;
      tags = map.from_entries a.tags.entries;
      members = members_of a.first a.others.items;
      signals = a.pending.items ++ signals_left (map.from_entries a.processes.entries) (map.from_entries a.tags.entries) (members_of a.first a.others.items) a.next;
    } };

    ghost invariant = { λ a.
        (btree_map_len a.processes ≤ vec_capacity a.others)
        × (btree_map_len a.processes ≤ deque_capacity a.pending) };
}

impl Links {
    /// No processes, no links, and nobody fell. It takes no memory yet.
    pub fn new(alloc: Global) -> Links
        ensures processes { result.processes ≡ map.empty }
        ensures tags { result.tags ≡ map.empty }
        ensures members { result.members ≡ [] }
        ensures signals { result.signals ≡ [] }
    {
        Links {
            processes: BTreeMap::new(alloc),
            tags: BTreeMap::new(alloc),
            first: None,
            others: Vec::new(alloc),
            next: 0,
            pending: VecDeque::new(alloc),
        }
    }

    /// Adds a process, which dies with links; signals that are left are dropped. Refused for want
    /// of memory alone, and then the links are as they were.
    pub fn add(&mut self, pid: u64) -> Result<(), NoMemory>
        ensures processes { OnOk result (self.new.processes ≡ map.insert self.old.processes pid true) }
        ensures tags { self.new.tags ≡ self.old.tags }
        ensures members { self.new.members ≡ self.old.members }
        ensures signals { OnOk result (self.new.signals ≡ []) }
        ensures err { OnErr result (self.new ≡ self.old) }
    {
        let count = self.processes.len().saturating_add(1);
        self.others.reserve(count)?;
        self.pending.reserve(count)?;
        self.processes.insert(pid, true)?;
        self.drop_signals();
        Ok(())
    }

    /// Links two processes with this tag, in place of an earlier one; signals that are left are
    /// dropped. Refused for want of memory alone, and then the links are as they were.
    pub fn link(&mut self, a: u64, b: u64, tag: u64) -> Result<(), NoMemory>
        requires a_added { IsSome (map.get self.old.processes a) }
        requires b_added { IsSome (map.get self.old.processes b) }
        requires different { a ≢ b }
        ensures tags { OnOk result (self.new.tags ≡ map.insert self.old.tags (ends a b) tag) }
        ensures processes { self.new.processes ≡ self.old.processes }
        ensures members { self.new.members ≡ self.old.members }
        ensures signals { OnOk result (self.new.signals ≡ []) }
        ensures err { OnErr result (self.new ≡ self.old) }
    {
        let pair = ends(a, b);
        self.tags.insert(pair, tag)?;
        self.drop_signals();
        Ok(())
    }

    /// Takes away the link of two processes, if there is one; signals that are left are dropped.
    pub fn unlink(&mut self, a: u64, b: u64)
        ensures tags { self.new.tags ≡ map.remove self.old.tags (ends a b) }
        ensures processes { self.new.processes ≡ self.old.processes }
        ensures members { self.new.members ≡ self.old.members }
        ensures signals { self.new.signals ≡ [] }
    {
        self.tags.remove(&ends(a, b));
        self.drop_signals();
    }

    /// Says of a process that was added whether it dies with links; signals that are left are
    /// dropped.
    pub fn dies(&mut self, pid: u64, dies: bool)
        ensures processes { self.new.processes ≡ (if is_some (map.get self.old.processes pid) then map.insert self.old.processes pid dies else self.old.processes) }
        ensures tags { self.new.tags ≡ self.old.tags }
        ensures members { self.new.members ≡ self.old.members }
        ensures signals { self.new.signals ≡ [] }
    {
        if self.processes.contains_key(&pid) {
            match self.processes.insert(pid, dies) {
                Ok(_) => {}
                Err(_) => unreachable!(),
            }
        }
        self.drop_signals();
    }

    /// Takes out a process and its links; signals that are left are dropped. Whether it fell in
    /// the last fall is still known.
    pub fn remove(&mut self, pid: u64)
        ensures processes { self.new.processes ≡ map.remove self.old.processes pid }
        ensures tags { self.new.tags ≡ map.retain_keys self.old.tags (λ pair. not (is_end pid pair)) }
        ensures members { self.new.members ≡ self.old.members }
        ensures signals { self.new.signals ≡ [] }
    {
        self.processes.remove(&pid);
        self.tags
            .retain(|pair, _| !(pair.0 == pid || pair.1 == pid));
        self.drop_signals();
    }

    /// Lets the links of a process fall: finds out who falls with it, and which signals that
    /// brings. An earlier fall is forgotten.
    pub fn fall(&mut self, pid: u64)
        ensures members { IsFall self.old.processes self.old.tags pid self.new.members }
        ensures signals { self.new.signals ≡ signals_of self.old.processes self.old.tags self.new.members }
        ensures processes { self.new.processes ≡ self.old.processes }
        ensures tags { self.new.tags ≡ self.old.tags }
    {
        spread(&self.processes, &self.tags, pid, &mut self.others);
        self.first = Some(pid);
        self.next = 0;
        self.pending.clear();
    }

    /// Whether a process fell in the last fall; nobody did where there was none.
    pub fn fallen(&self, pid: u64) -> bool
        ensures { IsTrue result ↔ Contains self.now.members pid }
    {
        is_fallen(self.first, &self.others, pid)
    }

    /// Gives the next signal of the last fall: those of each member in turn, the first process
    /// first and then the others by rising number, and of each member by the rising number of the
    /// receiver. None is left where there was no fall, or where the processes or links were
    /// changed since.
    pub fn next_signal(&mut self) -> Option<Signal>
        ensures signal { self.old.signals ≡ option_to_list result ++ self.new.signals }
        ensures none { IsNone result ↔ (self.old.signals ≡ []) }
        ensures processes { self.new.processes ≡ self.old.processes }
        ensures tags { self.new.tags ≡ self.old.tags }
        ensures members { self.new.members ≡ self.old.members }
    {
        refill(
            &mut self.pending,
            &mut self.next,
            &self.processes,
            &self.tags,
            self.first,
            &self.others,
        );
        self.pending.pop_front()
    }

    /// Drops the signals that are left.
    fn drop_signals(&mut self)
        ensures processes { self.new.processes ≡ self.old.processes }
        ensures tags { self.new.tags ≡ self.old.tags }
        ensures members { self.new.members ≡ self.old.members }
        ensures signals { self.new.signals ≡ [] }
    {
        self.pending.clear();
        self.next = self.others.len().saturating_add(1);
    }
}
