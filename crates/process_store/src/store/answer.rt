ghost use Rattle.std.specs.Prelude.{◌≡◌, [], vec_capacity};
ghost use Rattle.resource_table.specs.Steps.{told};
ghost use Rattle.node_state.specs.Seats.{meaning};
ghost use Rattle.node_mirror.specs.Steps.{home};
ghost use Rattle.process_store.specs.Keeps.{StoreKeeps};
ghost use Rattle.process_store.specs.PassOn.{PassesOn};
ghost use Rattle.process_store.specs.Holds.{Becomes, held_of, kept_of, place_at};
ghost use Rattle.process_store.specs.Telling.{MayBeTold, Tells};

use super::Store;
use crate::Place;
use crate::place::set_place;
use host_port::{Engine, Reply};
use outside::Outside;
use std::mem::replace;

impl<E: Engine, O: Outside> Store<E, O> {
    /// Gives a process whose Give is being performed the reply to its request: it is at home.
    pub fn answer(&mut self, pid: u64, reply: &Reply)
        requires keeps { StoreKeeps self.old }
        requires giving { MayBeTold E.phase E.memory (place_at self.old pid) reply.now }
        ensures keeps { StoreKeeps self.new }
        ensures held { Tells (meaning E.stands E.phase E.memory) (place_at self.old pid) reply.now (λ seat engine.
            Becomes self.new (home (held_of self.old) pid (record seat { engine = engine }))) }
        ensures giver { self.new.giver ≡ self.old.giver }
        ensures came { self.new.came ≡ self.old.came }
        ensures links { self.new.links ≡ self.old.links }
        ensures queue { self.new.queue ≡ self.old.queue }
        ensures mail { self.new.mail ≡ self.old.mail }
        ensures same { self.new ≡ record self.old { places = self.new.places } }
        ensures rooms { vec_capacity self.new.closed ≡ vec_capacity self.old.closed }
        ensures streams { PassesOn
            (told O.Stream.taken O.Stream.put O.Stream.faults O.Stream.waits O.Stream.empties O.Stream.down)
            (kept_of self.old) (kept_of self.new) [] [] }
    {
        let place = replace(&mut self.places[pid as usize], Place::Gone);
        let Place::Giving(mut proc, _) = place else {
            unreachable!()
        };
        proc.engine.answer(reply);
        set_place(&mut self.places, pid, Place::Home(proc));
    }
}
