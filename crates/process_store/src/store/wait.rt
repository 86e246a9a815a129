ghost use Rattle.std.specs.Prelude.{◌≡◌, ◌<◌, [], None, Some, length, true, vec_capacity};
ghost use Rattle.std.specs.FinMap.{len};
ghost use Rattle.host_port.specs.declared.ask.Ask.{Ask};
ghost use Rattle.resource_table.specs.Steps.{told};
ghost use Rattle.node_state.specs.Seats.{Seat};
ghost use Rattle.node_mirror.specs.Slots.{Giving, is_giving};
ghost use Rattle.node_mirror.specs.Steps.{asleep};
ghost use Rattle.process_store.specs.Keeps.{StoreKeeps};
ghost use Rattle.process_store.specs.Late.{SetsDeadline};
ghost use Rattle.process_store.specs.PassOn.{PassesOn};
ghost use Rattle.process_store.specs.Holds.{Becomes, held_of, kept_of, place_at};

use super::Store;
use crate::Place;
use crate::place::set_place;
use host_port::Engine;
use outside::Outside;
use run_queue::Queue;
use std::mem::replace;

/// Gives a process that waits its deadline, where its wait has an end.
fn set_wait(queue: &mut Queue, pid: u64, deadline: Option<u64>)
    requires { len queue.old.deadlines < queue.old.room }
    ensures deadlines { SetsDeadline queue.old.deadlines queue.new.deadlines pid deadline }
    ensures ready { queue.new.ready ≡ queue.old.ready }
    ensures room { queue.new.room ≡ queue.old.room }
{
    if let Some(at) = deadline {
        queue.set_deadline(pid, at);
    }
}

impl<E: Engine, O: Outside> Store<E, O> {
    /// Lets a process whose Give is being performed wait for the answer to its ask, up to a deadline, or without end.
    pub fn wait(&mut self, pid: u64, deadline: Option<u64>)
        requires keeps { StoreKeeps self.old }
        requires giving { is_giving (place_at self.old pid) ≡ true }
        requires giver { self.old.giver ≡ Some pid }
        ensures keeps { StoreKeeps self.new }
        ensures held { (seat : Seat E) (ask : Ask) → place_at self.old pid ≡ Giving seat ask →
            Becomes self.new (asleep (held_of self.old) pid seat ask deadline) }
        ensures giver { self.new.giver ≡ None }
        ensures came { self.new.came ≡ self.old.came }
        ensures links { self.new.links ≡ self.old.links }
        ensures ready { self.new.queue.ready ≡ self.old.queue.ready }
        ensures mail { self.new.mail ≡ self.old.mail }
        ensures same { self.new ≡ record self.old {
          places = self.new.places;
          queue = self.new.queue;
          giver = self.new.giver;
        } }
        ensures rooms { vec_capacity self.new.closed ≡ vec_capacity self.old.closed }
        ensures streams { PassesOn
            (told O.Stream.taken O.Stream.put O.Stream.faults O.Stream.waits O.Stream.empties O.Stream.down)
            (kept_of self.old) (kept_of self.new) [] [] }
    {
        let place = replace(&mut self.places[pid as usize], Place::Gone);
        let Place::Giving(proc, ask) = place else {
            unreachable!()
        };
        set_place(&mut self.places, pid, Place::Asleep(proc, ask));
        set_wait(&mut self.queue, pid, deadline);
        self.giver = None;
    }
}
