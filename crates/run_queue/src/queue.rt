ghost use Rattle.std.specs.Prelude.{◌≡◌, ◌↔◌, ◌<◌, ℕ, false, [], ◌∷◌, ◌++◌, length, max};
ghost use Rattle.std.specs.Prelude.{IsTrue, IsNone, IsSome, OnOk, OnErr, MatchOption};
ghost use Rattle.std.specs.Option.{option_to_list};
ghost use Rattle.std.specs.FinMap as map;
ghost use Rattle.run_queue.specs.Schedule.{IsDue, IsLeastDue, without};

use crate::deadlines::Deadlines;
use memory_refusal::NoMemory;
use std::alloc::Global;
use std::collections::VecDeque;
use std::marker::Model;

/// The ready processes in their order, and the deadlines of those that wait.
#[derive(Drop)]
pub struct Queue {
    ready: VecDeque<u64>,
    deadlines: Deadlines,
    room: usize,
}

impl Model for Queue {
    ghost use Rattle.std.specs.Prelude.{◌≤◌};
    ghost use Rattle.std.specs.VecDeque.{deque_capacity};
    ghost use Rattle.run_queue.specs.Schedule.{Schedule, schedule_code};

    ghost Value = { Schedule };

    ghost coded = { schedule_code };

    ghost view = { λ a. record { ready = a.ready.items; deadlines = a.deadlines.deadlines; room = a.room } };

    ghost invariant = { λ a. (a.room ≤ deque_capacity a.ready) × (a.room ≤ a.deadlines.room) };
}

impl Queue {
    /// Nobody is ready or waits, and there is no room. It takes no memory yet.
    pub fn new(alloc: Global) -> Queue
        ensures ready { result.ready ≡ [] }
        ensures deadlines { result.deadlines ≡ map.empty }
        ensures room { result.room ≡ 0 }
    {
        Queue {
            ready: VecDeque::new(alloc),
            deadlines: Deadlines::new(alloc),
            room: 0,
        }
    }

    /// Makes room for `n` processes altogether, in the list and in the deadlines. `NoMemory` comes
    /// for want of memory alone, and then the queue is as it was.
    pub fn reserve(&mut self, n: u32) -> Result<(), NoMemory>
        ensures ready { self.new.ready ≡ self.old.ready }
        ensures deadlines { self.new.deadlines ≡ self.old.deadlines }
        ensures ok { OnOk result (self.new.room ≡ max self.old.room n) }
        ensures err { OnErr result (self.new ≡ self.old) }
    {
        let count = n as usize;
        self.ready.reserve(count.saturating_sub(self.ready.len()))?;
        self.deadlines.reserve(count)?;
        self.room = self.room.max(count);
        Ok(())
    }

    /// Adds a process at the back of the list, in a place of the room.
    pub fn push_reserved(&mut self, pid: u64)
        requires { length self.old.ready < self.old.room }
        ensures ready { self.new.ready ≡ self.old.ready ++ pid ∷ [] }
        ensures deadlines { self.new.deadlines ≡ self.old.deadlines }
        ensures room { self.new.room ≡ self.old.room }
    {
        match self.ready.push_back(pid) {
            Ok(()) => {}
            Err(_) => unreachable!(),
        }
    }

    /// How many processes are in the list.
    pub fn len(&self) -> u64
        ensures { result ≡ length self.now.ready }
    {
        self.ready.len() as u64
    }

    /// Nobody is in the list.
    pub fn is_empty(&self) -> bool
        ensures { IsTrue result ↔ (self.now.ready ≡ []) }
    {
        self.ready.is_empty()
    }

    /// Takes the process at the front out of the list; None exactly where the list is empty. Its place
    /// is free again.
    pub fn pop(&mut self) -> Option<u64>
        ensures popped { self.old.ready ≡ option_to_list result ++ self.new.ready }
        ensures none { IsNone result ↔ (self.old.ready ≡ []) }
        ensures deadlines { self.new.deadlines ≡ self.old.deadlines }
        ensures room { self.new.room ≡ self.old.room }
    {
        self.ready.pop_front()
    }

    /// Takes a process out of the list, wherever it stands. Its deadline stays.
    pub fn remove(&mut self, pid: u64)
        ensures ready { self.new.ready ≡ without self.old.ready pid }
        ensures deadlines { self.new.deadlines ≡ self.old.deadlines }
        ensures room { self.new.room ≡ self.old.room }
    {
        self.ready.retain(|other| *other != pid);
    }

    /// Gives a process this deadline, in place of an earlier one or in a place of the room.
    pub fn set_deadline(&mut self, pid: u64, at: u64)
        requires { map.contains_key self.old.deadlines pid ≡ false → map.len self.old.deadlines < self.old.room }
        ensures deadlines { self.new.deadlines ≡ map.insert self.old.deadlines pid at }
        ensures ready { self.new.ready ≡ self.old.ready }
        ensures room { self.new.room ≡ self.old.room }
    {
        self.deadlines.set(pid, at);
    }

    /// Takes away a process's deadline, if it has one. Its place is free again.
    pub fn clear_deadline(&mut self, pid: u64)
        ensures deadlines { self.new.deadlines ≡ map.remove self.old.deadlines pid }
        ensures ready { self.new.ready ≡ self.old.ready }
        ensures room { self.new.room ≡ self.old.room }
    {
        self.deadlines.clear(pid);
    }

    /// Takes away the deadline of the process with the least number of those whose deadline is at
    /// most `now`, and answers the number; None exactly where no deadline is at most `now`.
    pub fn due(&mut self, now: u64) -> Option<u64>
        ensures least { MatchOption result ((pid : ℕ) → ¬ IsDue self.old.deadlines now pid)
            (IsLeastDue self.old.deadlines now) }
        ensures deadlines { MatchOption result (self.new.deadlines ≡ self.old.deadlines)
            (λ pid. self.new.deadlines ≡ map.remove self.old.deadlines pid) }
        ensures ready { self.new.ready ≡ self.old.ready }
        ensures room { self.new.room ≡ self.old.room }
    {
        let pid = self.deadlines.least_due(now)?;
        self.deadlines.clear(pid);
        Some(pid)
    }

    /// Whether a process waits with a deadline.
    pub fn timed(&self) -> bool
        ensures { IsTrue result ↔ ((pid : ℕ) × IsSome (map.get self.now.deadlines pid)) }
    {
        !self.deadlines.is_empty()
    }
}
