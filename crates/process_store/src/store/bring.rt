ghost use Rattle.std.specs.Prelude.{vec_capacity, ◌≡◌, ◌+◌, ◌≤◌, ℕ, [], None, Some, length};
ghost use Rattle.resource_table.specs.Handles.{numbers_of};
ghost use Rattle.resource_table.specs.Steps.{told};
ghost use Rattle.node_mirror.specs.Slots.{Away, Giving, Home};
ghost use Rattle.node_mirror.specs.Steps.{back};
ghost use Rattle.host_calls.specs.Shown.{seat_of, hands_of};
ghost use Rattle.process_store.specs.Keeps.{StoreKeeps, stream_count};
ghost use Rattle.process_store.specs.PassOn.{PassesOn};
ghost use Rattle.process_store.specs.Holds.{Becomes, held_of, kept_of, place_at};

use super::Store;
use crate::Place;
use crate::closing::close_all;
use crate::place::set_place;
use host_calls::Proc;
use host_port::{Ask, Engine};
use outside::Outside;

impl<E: Engine, O: Outside> Store<E, O> {
    /// Takes back a process that asks for a call of the world, at this time; its Give is being performed from now on.
    /// The streams that its turn's calls have closed are closed.
    pub fn bring(&mut self, mut proc: Proc<E, O>, ask: Ask, time: u64)
        requires keeps { StoreKeeps self.old }
        requires away { (worker : ℕ) × (place_at self.old proc.start.pid ≡ Away worker) }
        requires alone { self.old.giver ≡ None }
        requires few { stream_count self.old + length (hands_of proc) + length proc.shed ≤ self.old.streams }
        ensures keeps { StoreKeeps self.new }
        ensures held { Becomes self.new
            (back (held_of self.old) proc.start.pid (Giving (seat_of proc) ask) time (numbers_of proc.shed)) }
        ensures giver { self.new.giver ≡ Some proc.start.pid }
        ensures came { self.new.came ≡ self.old.came }
        ensures links { self.new.links ≡ self.old.links }
        ensures queue { self.new.queue ≡ self.old.queue }
        ensures mail { self.new.mail ≡ self.old.mail }
        ensures rooms { vec_capacity self.new.closed ≡ vec_capacity self.old.closed }
        ensures streams { PassesOn
            (told O.Stream.taken O.Stream.put O.Stream.faults O.Stream.waits O.Stream.empties O.Stream.down)
            (kept_of self.old) (kept_of self.new) (hands_of proc) proc.shed }
    {
        let pid = proc.start.pid;
        close_all(&mut self.closed, &mut proc.shed);
        set_place(&mut self.places, pid, Place::Giving(proc, ask));
        self.giver = Some(pid);
        self.time = time;
        self.out -= 1;
    }

    /// Takes back a process that is at home with that. Where a stream was opened for it, which is in its table already
    /// under the next number, one number is drawn, else none.
    pub fn bring_home(&mut self, mut proc: Proc<E, O>, drawn: u64)
        requires keeps { StoreKeeps self.old }
        requires away { (worker : ℕ) × (place_at self.old proc.start.pid ≡ Away worker) }
        requires alone { self.old.giver ≡ None }
        requires few { stream_count self.old + length (hands_of proc) + length proc.shed
            ≤ self.old.streams + drawn }
        requires one { drawn ≤ 1 }
        ensures keeps { StoreKeeps self.new }
        ensures held { Becomes self.new
            (record (back (held_of self.old) proc.start.pid (Home (seat_of proc)) self.old.time (numbers_of proc.shed)) {
              streams = self.old.streams + drawn;
            }) }
        ensures giver { self.new.giver ≡ Some proc.start.pid }
        ensures came { self.new.came ≡ self.old.came }
        ensures links { self.new.links ≡ self.old.links }
        ensures queue { self.new.queue ≡ self.old.queue }
        ensures rooms { vec_capacity self.new.closed ≡ vec_capacity self.old.closed }
        ensures streams { PassesOn
            (told O.Stream.taken O.Stream.put O.Stream.faults O.Stream.waits O.Stream.empties O.Stream.down)
            (kept_of self.old) (kept_of self.new) (hands_of proc) proc.shed }
    {
        let pid = proc.start.pid;
        close_all(&mut self.closed, &mut proc.shed);
        set_place(&mut self.places, pid, Place::Home(proc));
        self.giver = Some(pid);
        self.streams += drawn;
        self.out -= 1;
    }
}
