ghost use Rattle.std.specs.Prelude.{◌≡◌, ◌+◌, ◌≤◌, ℕ, false, length, vec_capacity};
ghost use Rattle.node_mirror.specs.Slots.{is_giving};
ghost use Rattle.process_store.specs.Holds.{place_at};
ghost use Rattle.process_store.specs.Keeps.{StoreKeeps};
ghost use Rattle.process_store.specs.Takings.{IsTakenOut, Skips};

use super::Store;
use crate::Place;
use host_calls::Proc;
use host_port::Engine;
use outside::Outside;
use std::mem::replace;

impl<E: Engine, O: Outside> Store<E, O> {
    /// The first of the queue that is at home; those before it have ended, and leave the queue. None exactly where
    /// nobody is ready.
    fn next_home(&mut self) -> Option<u64>
        requires keeps { StoreKeeps self.old }
        ensures skips { Skips self.old self.new result }
        ensures deadlines { self.new.queue.deadlines ≡ self.old.queue.deadlines }
        ensures room { self.new.queue.room ≡ self.old.queue.room }
        ensures same { self.new ≡ record self.old { queue = self.new.queue } }
    {
        while let Some(pid) = self.queue.pop() {
            if let Place::Home(_) = self.places[pid as usize] {
                return Some(pid);
            }
        }
        None
    }

    /// Hands the first process that is ready out to a worker, with its number. None exactly where nobody is ready.
    pub fn take(&mut self, worker: u8) -> Option<(u64, Proc<E, O>)>
        requires keeps { StoreKeeps self.old }
        requires idle { (pid : ℕ) → is_giving (place_at self.old pid) ≡ false }
        requires room { self.old.streams + self.old.out + 1 ≤ vec_capacity self.old.closed }
        ensures keeps { StoreKeeps self.new }
        ensures taken { IsTakenOut self.old self.new worker result }
        ensures giver { self.new.giver ≡ self.old.giver }
        ensures came { self.new.came ≡ self.old.came }
        ensures links { self.new.links ≡ self.old.links }
        ensures numbers { length self.new.places.items ≡ length self.old.places.items }
        ensures rooms { vec_capacity self.new.closed ≡ vec_capacity self.old.closed }
    {
        let pid = self.next_home()?;
        let place = replace(&mut self.places[pid as usize], Place::Away(worker));
        let Place::Home(proc) = place else {
            unreachable!()
        };
        self.out += 1;
        Some((pid, proc))
    }
}
