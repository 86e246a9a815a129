ghost use Rattle.std.specs.Prelude.{◌≡◌, ◌+◌, ◌<◌, ◌≤◌, ◌++◌, List, [], length, vec_len, vec_capacity};
ghost use Rattle.resource_table.specs.Steps.{Sheds, told};
ghost use Rattle.world_rules.specs.declared.life.Ended.{Ended as EndMemory};
ghost use Rattle.world_rules.specs.Ends.{all_struck};
ghost use Rattle.world_rules.specs.Lives.{Setting};
ghost use Rattle.world_rules.specs.World.{World, up_to};
ghost use Rattle.node_state.specs.Fits.{IsLastOf, ShowMemory};
ghost use Rattle.node_state.specs.Seats.{meaning};
ghost use Rattle.node_mirror.specs.Slots.{Gone, is_live_slot};
ghost use Rattle.node_mirror.specs.Held.{Mirrors};
ghost use Rattle.node_mirror.specs.Steps.{struck};
ghost use Rattle.process_store.specs.Keeps.{HasShedAll, IsVacant, StoreKeeps, is_present};
ghost use Rattle.process_store.specs.PassOn.{PassesOn};
ghost use Rattle.process_store.specs.Holds.{Becomes, hands_at, held_of, kept_of, place_at, slot_of};
ghost use Rattle.process_store.specs.Telling.{AddsLast, HasEndRoom, StaysButEnds, after_strike};

use super::Store;
use crate::Place;
use crate::closing::{close_mail, close_proc};
use crate::place::{is_live, set_place};
use host_calls::Proc;
use host_port::Engine;
use journal::Journal;
use outside::Outside;
use resource_table::Owned;
use std::mem::replace;
use tagged_mailbox::Mailbox;
use world_rules::{End, Ended};

/// What is kept of the process of this number at its end.
pub(super) fn last_of<E: Engine, O: Outside>(pid: u64, proc: &Proc<E, O>) -> Ended
    ensures { IsLastOf (meaning E.stands E.phase E.memory) pid proc.now.engine result }
{
    Ended {
        pid,
        pages: proc.engine.pages(),
        mark: proc.engine.mark(),
    }
}

/// The place of a process after an end has come to it from outside its turn. Where it is at home, what is kept of it is
/// recorded, and its streams in hand are closed.
fn strike_at<E: Engine, O: Outside>(
    journal: &mut Journal,
    closed: &mut Vec<Owned<O::Stream>>,
    pid: u64,
    place: Place<E, O>,
    end: End,
) -> Place<E, O>
    requires ends { length journal.old.ends < length journal.old.births }
    requires shed { HasShedAll place }
    requires room { vec_len closed.old + length (hands_at place) ≤ vec_capacity closed.old }
    ensures slot { slot_of result ≡ after_strike (slot_of place) end }
    ensures vacant { IsVacant result }
    ensures last { AddsLast (meaning E.stands E.phase E.memory) pid (slot_of place) journal.old journal.new }
    ensures closed { Sheds (told O.Stream.taken O.Stream.put O.Stream.faults O.Stream.waits O.Stream.empties
        O.Stream.down) (hands_at place) closed.old.items closed.new.items }
    ensures capacity { vec_capacity closed.new ≡ vec_capacity closed.old }
{
    match place {
        Place::Home(proc) | Place::Asleep(proc, _) | Place::Giving(proc, _) => {
            journal.ended(last_of(pid, &proc));
            close_proc(proc, closed);
            Place::Gone
        }
        Place::Away(worker) => Place::Fated(worker, end),
        other => other,
    }
}

/// How many processes that haven't ended the place has.
fn present_count<E: Engine, O: Outside>(place: &Place<E, O>) -> u64
    ensures { result ≡ is_present place.now }
{
    match place {
        Place::Nobody | Place::Gone => 0,
        _ => 1,
    }
}

impl<E: Engine, O: Outside> Store<E, O> {
    /// An end comes to the process of this number from outside its turn: at home it ends, and what is kept of its
    /// memory is recorded; where a worker has it, it is doomed; one that isn't live stays as it is. What ends or is
    /// doomed has its mailbox closed, and no name names it.
    pub fn strike(&mut self, journal: &mut Journal, pid: u64, end: End)
        requires keeps { StoreKeeps self.old }
        requires room { HasEndRoom self.old journal.old }
        ensures keeps { StoreKeeps self.new }
        ensures held { Becomes self.new (struck (held_of self.old) pid end) }
        ensures last { AddsLast (meaning E.stands E.phase E.memory) pid (place_at self.old pid) journal.old
            journal.new }
        ensures room { HasEndRoom self.new journal.new }
        ensures numbers { length self.new.places.items ≡ length self.old.places.items }
        ensures giver { self.new.giver ≡ self.old.giver }
        ensures came { self.new.came ≡ self.old.came }
        ensures links { self.new.links ≡ self.old.links }
        ensures ready { self.new.queue.ready ≡ self.old.queue.ready }
        ensures rooms { vec_capacity self.new.closed ≡ vec_capacity self.old.closed }
        ensures streams { PassesOn
            (told O.Stream.taken O.Stream.put O.Stream.faults O.Stream.waits O.Stream.empties O.Stream.down)
            (kept_of self.old) (kept_of self.new) [] [] }
    {
        if !is_live(&self.places, pid) {
            return;
        }
        let place = replace(&mut self.places[pid as usize], Place::Gone);
        let struck = strike_at(journal, &mut self.closed, pid, place, end);
        // Who is doomed hasn't ended yet.
        let left = present_count(&struck);
        set_place(&mut self.places, pid, struck);
        let mail = replace(&mut self.mail[pid as usize], Mailbox::new(self.alloc));
        close_mail(mail, &mut self.shed, &mut self.closed);
        self.names.remove_process(pid);
        self.queue.clear_deadline(pid);
        self.unended -= 1 - left;
    }

    /// An end comes to all processes, one after another, by rising number.
    pub fn strike_all(&mut self, journal: &mut Journal, end: End)
        requires keeps { StoreKeeps self.old }
        requires room { HasEndRoom self.old journal.old }
        ensures keeps { StoreKeeps self.new }
        ensures mirrors { (setting : Setting E.Program) (w : World) →
            ShowMemory (meaning E.stands E.phase E.memory) setting →
            Mirrors (meaning E.stands E.phase E.memory) setting w (held_of self.old) journal.old.ends →
            Mirrors (meaning E.stands E.phase E.memory) setting (all_struck w (up_to w.numbers_drawn) end)
            (held_of self.new) journal.new.ends }
        ensures journal { StaysButEnds journal.old journal.new }
        ensures room { HasEndRoom self.new journal.new }
        ensures numbers { length self.new.places.items ≡ length self.old.places.items }
        ensures giver { self.new.giver ≡ self.old.giver }
        ensures came { self.new.came ≡ self.old.came }
        ensures links { self.new.links ≡ self.old.links }
        ensures ready { self.new.queue.ready ≡ self.old.queue.ready }
        ensures out { self.new.out ≡ self.old.out }
        ensures drawn { self.new.streams ≡ self.old.streams }
        ensures births { self.new.births ≡ self.old.births }
        ensures ends { (more : List EndMemory) × (journal.new.ends ≡ journal.old.ends ++ more) }
        ensures rooms { vec_capacity self.new.closed ≡ vec_capacity self.old.closed }
        ensures streams { PassesOn
            (told O.Stream.taken O.Stream.put O.Stream.faults O.Stream.waits O.Stream.empties O.Stream.down)
            (kept_of self.old) (kept_of self.new) [] [] }
    {
        let count = self.places.len() as u64;
        let mut pid = 1;
        while pid < count {
            self.strike(journal, pid, end);
            pid += 1;
        }
    }
}
