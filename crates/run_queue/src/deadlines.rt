//! Deadlines by process number, in room that was made beforehand.
ghost use Rattle.std.specs.Prelude.{◌≡◌, ◌==◌, ◌<◌, ◌≤◌, ◌↔◌, ℕ, false, position};
ghost use Rattle.std.specs.Prelude.{MatchOption, IsTrue, OnOk};
ghost use Rattle.std.specs.Ordering.{nat_cmp};
ghost use Rattle.std.specs.FinMap as map;
ghost use Rattle.run_queue.specs.Schedule.{IsDue, IsLeastDue, IsLeastOf, NoneBefore, due_numbers, lesser_of};

use memory_refusal::NoMemory;
use std::alloc::Global;
use std::marker::Model;

/// Each process that waits with a deadline, once, in no order. No deadline is before `earliest`, so
/// that nobody is looked for until then.
#[derive(Drop)]
pub struct Deadlines {
    entries: Vec<(u64, u64)>,
    earliest: u64,
}

impl Model for Deadlines {
    ghost use Rattle.std.specs.Prelude.{◌≡◌, length, vec_capacity};
    ghost use Rattle.std.specs.Ordering.{nat_cmp};
    ghost use Rattle.std.specs.FinMap as map;
    ghost use Rattle.run_queue.specs.Schedule.{Places, places_code, NoneBefore};

    ghost Value = { Places };

    ghost coded = { places_code };

    ghost view = { λ a. record { deadlines = map.from_entries a.entries.items; room = vec_capacity a.entries } };

    ghost invariant = { λ a.
        (map.len (map.from_entries {R = nat_cmp} a.entries.items) ≡ length a.entries.items)
        × NoneBefore a.earliest a.entries.items };
}

impl Deadlines {
    /// No deadlines. It takes no memory yet.
    pub fn new(alloc: Global) -> Deadlines
        ensures { result.deadlines ≡ map.empty }
    {
        Deadlines {
            entries: Vec::new(alloc),
            earliest: u64::MAX,
        }
    }

    /// Makes room for `count` deadlines altogether. `NoMemory` comes for want of memory alone, and then
    /// the deadlines are as they were.
    pub fn reserve(&mut self, count: usize) -> Result<(), NoMemory>
        ensures deadlines { self.new.deadlines ≡ self.old.deadlines }
        ensures room { self.old.room ≤ self.new.room }
        ensures ok { OnOk result (count ≤ self.new.room) }
    {
        self.entries
            .reserve(count.saturating_sub(self.entries.len()))?;
        Ok(())
    }

    /// Gives a process this deadline, in place of an earlier one or in a place of the room.
    pub fn set(&mut self, pid: u64, at: u64)
        requires { map.contains_key self.old.deadlines pid ≡ false → map.len self.old.deadlines < self.old.room }
        ensures deadlines { self.new.deadlines ≡ map.insert self.old.deadlines pid at }
        ensures room { self.old.room ≤ self.new.room }
    {
        self.earliest = self.earliest.min(at);
        match place_of(&self.entries, pid) {
            Some(place) => self.entries[place] = (pid, at),
            None => match self.entries.push((pid, at)) {
                Ok(()) => {}
                Err(_) => unreachable!(),
            },
        }
    }

    /// Takes a process's deadline away.
    pub fn clear(&mut self, pid: u64)
        ensures deadlines { self.new.deadlines ≡ map.remove self.old.deadlines pid }
        ensures room { self.new.room ≡ self.old.room }
    {
        self.entries.retain(|entry| entry.0 != pid);
    }

    /// The least number whose deadline is at most `now`; None exactly where there is none. It looks
    /// at the deadlines only where `now` has come to the earliest of them.
    pub fn least_due(&mut self, now: u64) -> Option<u64>
        ensures least { MatchOption result ((pid : ℕ) → ¬ IsDue self.old.deadlines now pid)
            (IsLeastDue self.old.deadlines now) }
        ensures deadlines { self.new.deadlines ≡ self.old.deadlines }
        ensures room { self.new.room ≡ self.old.room }
    {
        if now < self.earliest {
            return None;
        }
        let least = least_of_due(&self.entries, now);
        if least.is_none() {
            self.earliest = earliest_of(&self.entries);
        }
        least
    }

    /// Whether no process has a deadline.
    pub fn is_empty(&self) -> bool
        ensures { IsTrue result ↔ (map.len self.now.deadlines ≡ 0) }
    {
        self.entries.is_empty()
    }
}

/// The place of a process among the entries.
fn place_of(entries: &[(u64, u64)], pid: u64) -> Option<usize>
    ensures { result ≡ position (λ entry. entry.0 == pid) entries.now }
{
    entries.iter().position(|entry| entry.0 == pid)
}

/// The least number among the entries whose deadline is at most `now`.
fn least_of_due(entries: &[(u64, u64)], now: u64) -> Option<u64>
    ensures { IsLeastOf result (due_numbers now entries.now) }
{
    let mut least = None;
    for &(pid, at) in entries {
        if at <= now {
            least = Some(lesser(least, pid));
        }
    }
    least
}

/// A time that no deadline of the entries is before: the least of them.
fn earliest_of(entries: &[(u64, u64)]) -> u64
    ensures { NoneBefore result entries.now }
{
    let mut earliest = u64::MAX;
    for &(_, at) in entries {
        earliest = earliest.min(at);
    }
    earliest
}

/// The lesser of two numbers, of which the first may be missing.
fn lesser(least: Option<u64>, pid: u64) -> u64
    ensures { result ≡ lesser_of least pid }
{
    match least {
        Some(other) => other.min(pid),
        None => pid,
    }
}
