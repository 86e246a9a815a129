ghost use Rattle.std.specs.Prelude.{◌≡◌, ◌+◌, ◌≤◌, ◌↔◌, ℕ, IsTrue, None, OnOk, Some, false, true, vec_capacity};
ghost use Rattle.process_store.specs.Keeps.{StoreKeeps};
ghost use Rattle.process_store.specs.Holds.{held_of, kept_of, place_at};
ghost use Rattle.process_store.specs.Takes.{IsFatedSlot};

use super::Store;
use crate::Place;
use host_port::Engine;
use memory_refusal::NoMemory;
use outside::Outside;

impl<E: Engine, O: Outside> Store<E, O> {
    /// How many processes workers have, the doomed among them.
    pub fn out(&self) -> u64
        ensures { result ≡ self.now.out }
    {
        self.out
    }

    /// How many Pending gives and early Ticks the last entries are, Takes left aside.
    pub fn row(&self) -> u64
        ensures { result ≡ self.now.row }
    {
        self.row
    }

    /// Whether the run is over.
    pub fn is_over(&self) -> bool
        ensures { result ≡ self.now.over }
    {
        self.over
    }

    /// How many stream numbers were drawn.
    pub fn streams(&self) -> u64
        ensures { result ≡ self.now.streams }
    {
        self.streams
    }

    /// The process of this number is doomed under a worker.
    pub fn is_fated(&self, pid: u64) -> bool
        ensures { IsTrue result ↔ IsFatedSlot (place_at self.now pid) }
    {
        matches!(self.places.get(pid as usize), Some(Place::Fated(_, _)))
    }

    /// Whether somebody waits with a deadline.
    pub fn timed(&self) -> bool
        ensures none { result ≡ false → (pid : ℕ) → (held_of self.now).deadlines pid ≡ None }
        ensures some { result ≡ true →
            (pid : ℕ) × (deadline : ℕ) × ((held_of self.now).deadlines pid ≡ Some deadline) }
    {
        self.queue.timed()
    }

    /// The run is over.
    pub fn end_run(&mut self)
        requires keeps { StoreKeeps self.old }
        ensures keeps { StoreKeeps self.new }
        ensures over { self.new ≡ record self.old { over = true } }
    {
        self.over = true;
    }

    /// Makes room for so many closed streams more than may come to be closed. `NoMemory` leaves all as it was.
    pub fn reserve(&mut self, more: u32) -> Result<(), NoMemory>
        requires keeps { StoreKeeps self.old }
        ensures keeps { StoreKeeps self.new }
        ensures held { held_of self.new ≡ held_of self.old }
        ensures kept { kept_of self.new ≡ kept_of self.old }
        ensures same { self.new ≡ record self.old { closed = self.new.closed } }
        ensures rooms { vec_capacity self.old.closed ≤ vec_capacity self.new.closed }
        ensures room { OnOk result (self.new.streams + self.new.out + more ≤ vec_capacity self.new.closed) }
    {
        let Some(places) = self.out.checked_add(more as u64) else {
            return Err(NoMemory);
        };
        let Some(streams) = self.streams.checked_add(places) else {
            return Err(NoMemory);
        };
        self.closed.reserve(streams as usize - self.closed.len())?;
        Ok(())
    }
}
