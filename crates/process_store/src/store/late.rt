ghost use Rattle.std.specs.Prelude.{◌≡◌, ℕ, List, [], IfSome, MatchOption, None, length, nat_eq, not};
ghost use Rattle.std.specs.FinMap as map;
ghost use Rattle.resource_table.specs.Steps.{told};
ghost use Rattle.run_queue.specs.Schedule.{IsDue, IsLeastDue};
ghost use Rattle.world_rules.specs.declared.life.Ended.{Ended as EndMemory};
ghost use Rattle.world_rules.specs.Lives.{Setting};
ghost use Rattle.world_rules.specs.Time.{all_timed_out, due_processes};
ghost use Rattle.world_rules.specs.World.{World};
ghost use Rattle.node_state.specs.Seats.{meaning};
ghost use Rattle.node_mirror.specs.Held.{Mirrors};
ghost use Rattle.process_store.specs.Keeps.{StoreKeeps};
ghost use Rattle.process_store.specs.Late.{ComesLate};
ghost use Rattle.process_store.specs.PassOn.{PassesOn};
ghost use Rattle.process_store.specs.Performing.{GivesStay, MayBeWoken, StayGone, StaysBeside};
ghost use Rattle.process_store.specs.Holds.{held_of, kept_of, place_at};

use super::Store;
use crate::Place;
use crate::place::set_place;
use crate::replies::late_reply;
use host_port::Engine;
use outside::Outside;
use std::mem::replace;

impl<E: Engine, O: Outside> Store<E, O> {
    /// The first wait, by number, whose deadline has come is over, without what it waited for; the process comes home.
    /// None: no deadline has come, and nothing changes.
    fn late_next(&mut self) -> Option<u64>
        requires keeps { StoreKeeps self.old }
        requires waits { (pid : ℕ) → MayBeWoken E.phase E.memory (place_at self.old pid) }
        ensures keeps { StoreKeeps self.new }
        ensures least { MatchOption result ((pid : ℕ) → ¬ IsDue self.old.queue.deadlines self.old.time pid)
            (IsLeastDue self.old.queue.deadlines self.old.time) }
        ensures stays { result ≡ None → self.new ≡ self.old }
        ensures late { IfSome result (ComesLate (meaning E.stands E.phase E.memory) self.old self.new) }
        ensures dates { IfSome result (λ pid. self.new.queue.deadlines ≡ map.remove self.old.queue.deadlines pid) }
        ensures beside { StaysBeside self.old self.new }
        ensures giver { self.new.giver ≡ self.old.giver }
        ensures streams { PassesOn
            (told O.Stream.taken O.Stream.put O.Stream.faults O.Stream.waits O.Stream.empties O.Stream.down)
            (kept_of self.old) (kept_of self.new) [] [] }
    {
        let pid = self.queue.due(self.time)?;
        let place = replace(&mut self.places[pid as usize], Place::Gone);
        let Place::Asleep(mut proc, ask) = place else {
            unreachable!()
        };
        proc.engine.answer(&late_reply(ask.call));
        set_place(&mut self.places, pid, Place::Home(proc));
        self.came.push_reserved(pid);
        Some(pid)
    }

    /// The waits whose deadline has come are over, one after another, by rising number; those processes come home. The
    /// result is whether there was one.
    pub fn wake_due(&mut self) -> bool
        requires keeps { StoreKeeps self.old }
        requires waits { (pid : ℕ) → MayBeWoken E.phase E.memory (place_at self.old pid) }
        ensures keeps { StoreKeeps self.new }
        ensures mirrors { (setting : Setting E.Program) (w : World) (ends : List EndMemory) →
            Mirrors (meaning E.stands E.phase E.memory) setting w (held_of self.old) ends →
            Mirrors (meaning E.stands E.phase E.memory) setting (all_timed_out w (due_processes w)) (held_of self.new)
            ends × (nat_eq (length (due_processes w)) 0 ≡ not result) }
        ensures gives_stay { GivesStay self.old self.new }
        ensures stay_gone { StayGone self.old self.new }
        ensures beside { StaysBeside self.old self.new }
        ensures giver { self.new.giver ≡ self.old.giver }
        ensures streams { PassesOn
            (told O.Stream.taken O.Stream.put O.Stream.faults O.Stream.waits O.Stream.empties O.Stream.down)
            (kept_of self.old) (kept_of self.new) [] [] }
    {
        let mut some = false;
        while self.late_next().is_some() {
            some = true;
        }
        some
    }
}
