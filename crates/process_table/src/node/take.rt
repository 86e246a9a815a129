ghost use Rattle.std.specs.Prelude.{◌≡◌, ◌<◌, ◌≤◌, ◌+◌, [], length, false, true, vec_len, vec_capacity};
ghost use Rattle.resource_table.specs.Steps.{Sheds, told};
ghost use Rattle.world_rules.specs.Lives.{IsRun};
ghost use Rattle.world_rules.specs.declared.entry.Entry.TheVariants.{Starve};
ghost use Rattle.node_state.specs.Seats.{meaning};
ghost use Rattle.node_state.specs.Fits.{IsLastOf};
ghost use Rattle.node_state.specs.Slots.{struck};
ghost use Rattle.process_table.specs.Seen.{KeepsStreams, setting_of, world_of};
ghost use Rattle.process_table.specs.Holds.{slot_of, hands_at, HasShedAll, IsVacant, AddsLast};
ghost use Rattle.process_table.specs.Takes.{SameTerms, IsTaken, RecordsEntry, MayEndAll};

use super::{FIRST, Node};
use crate::Taken;
use crate::closing::{close_mail, close_proc};
use crate::place::{Place, set_place};
use host_calls::Proc;
use host_port::Engine;
use journal::Journal;
use node_laws::{streams_keep_standing, streams_stand_apart};
use outside::Outside;
use resource_table::Owned;
use std::mem::replace;
use tagged_mailbox::Mailbox;
use world_rules::{End, Ended, Entry, sound, touches};

/// What is kept of the process of this number at its end.
pub(super) fn last_of<E: Engine, O: Outside>(pid: u64, proc: &Proc<E, O>) -> Ended
    ensures { IsLastOf (meaning E.stands E.phase E.memory) pid proc.now.engine result }
{
    Ended {
        pid,
        pages: proc.engine.pages(),
        mark: proc.engine.mark(),
    }
}

/// The place of a process after an end has come to it from outside its turn. Where it is at home, what is kept of it is
/// recorded, and its streams are closed.
fn strike<E: Engine, O: Outside>(
    journal: &mut Journal,
    closed: &mut Vec<Owned<O::Stream>>,
    pid: u64,
    place: Place<E, O>,
    end: End,
) -> Place<E, O>
    requires ends { length journal.old.ends < length journal.old.births }
    requires shed { HasShedAll place }
    requires room { vec_len closed.old + length (hands_at place) ≤ vec_capacity closed.old }
    ensures slot { slot_of result ≡ struck end (slot_of place) }
    ensures vacant { IsVacant result }
    ensures last { AddsLast (meaning E.stands E.phase E.memory) pid (slot_of place) journal.old journal.new }
    ensures closed { Sheds (told O.Stream.taken O.Stream.put O.Stream.faults O.Stream.waits O.Stream.empties
        O.Stream.down) (hands_at place) closed.old.items closed.new.items }
    ensures capacity { vec_capacity closed.new ≡ vec_capacity closed.old }
{
    match place {
        Place::Home(proc) => {
            journal.ended(last_of(pid, &proc));
            close_proc(proc, closed);
            Place::Gone
        }
        Place::Asleep(proc, _) => {
            journal.ended(last_of(pid, &proc));
            close_proc(proc, closed);
            Place::Gone
        }
        Place::Away(worker) => Place::Fated(worker, end),
        other => other,
    }
}

impl<E: Engine, O: Outside> Node<E, O> {
    /// Ends all processes, and the run, by this entry, with this end. Process 1 is alone so far.
    fn end_all(&mut self, entry: Entry, end: End)
        requires going { (world_of self.old).over ≡ false }
        requires due { MayEndAll self.old entry end }
        ensures same { SameTerms self.old self.new }
        ensures recorded { RecordsEntry self.old.book self.new.book entry }
        ensures over { (world_of self.new).over ≡ true }
        ensures spare { self.old.spare ≤ self.new.spare }
        ensures streams { KeepsStreams
            (told O.Stream.taken O.Stream.put O.Stream.faults O.Stream.waits O.Stream.empties O.Stream.down) self.new }
        ensures run { IsRun (setting_of E.begin E.at self.new) self.new.book }
    {
        sound();
        touches();
        streams_keep_standing::<E, O::Stream>();
        streams_stand_apart::<E>();
        self.journal.add(entry);
        let place = replace(&mut self.places[FIRST as usize], Place::Gone);
        let struck = strike(&mut self.journal, &mut self.closed, FIRST, place, end);
        set_place(&mut self.places, FIRST, struck);
        let mail = replace(&mut self.mail[FIRST as usize], Mailbox::new(self.alloc));
        close_mail(mail, &mut self.shed, &mut self.closed);
        self.queue.remove(FIRST);
        self.queue.clear_deadline(FIRST);
        self.row = 0;
        self.over = true;
    }

    /// Takes the process at the front of the ready list, and records it.
    ///
    /// `Over` comes exactly where the run is over, also by the Idle or the Stall that this call records: Idle where the
    /// run was idle for too long, and Stall where nothing is ready, no worker has a process, and nobody waits with a
    /// deadline. `Nothing` comes where nothing is ready, and the run goes on.
    pub fn take(&mut self, worker: u8) -> Taken<E, O>
        requires { 2 ≤ self.old.spare }
        ensures same { SameTerms self.old self.new }
        ensures taken { IsTaken (meaning E.stands E.phase E.memory) E.may_ask
            (told O.Stream.taken O.Stream.put O.Stream.faults O.Stream.waits O.Stream.empties O.Stream.down)
            self.old self.new worker result }
        ensures streams { KeepsStreams
            (told O.Stream.taken O.Stream.put O.Stream.faults O.Stream.waits O.Stream.empties O.Stream.down) self.new }
        ensures run { IsRun (setting_of E.begin E.at self.new) self.new.book }
    {
        sound();
        touches();
        streams_keep_standing::<E, O::Stream>();
        streams_stand_apart::<E>();
        if self.over {
            return Taken::Over;
        }
        if self.idle <= self.row {
            self.end_all(Entry::Idle { worker }, End::Idle);
            return Taken::Over;
        }
        if let Some(pid) = self.queue.pop() {
            let place = replace(&mut self.places[pid as usize], Place::Away(worker));
            let Place::Home(proc) = place else {
                unreachable!()
            };
            self.journal.add(Entry::Take { worker, pid });
            self.out += 1;
            self.spare -= 2;
            return Taken::Proc(proc);
        }
        if self.out > 0 || self.queue.timed() {
            return Taken::Nothing;
        }
        self.end_all(Entry::Stall { worker }, End::Stalled);
        Taken::Over
    }

    /// Ends the run for want of memory, unless it is over. Its place is kept from the start.
    pub fn starve(&mut self, worker: u8)
        ensures same { SameTerms self.old self.new }
        ensures over { (world_of self.old).over ≡ true → self.new.book ≡ self.old.book }
        ensures recorded { (world_of self.old).over ≡ false → RecordsEntry self.old.book self.new.book (Starve worker) }
        ensures ends { (world_of self.new).over ≡ true }
        ensures streams { KeepsStreams
            (told O.Stream.taken O.Stream.put O.Stream.faults O.Stream.waits O.Stream.empties O.Stream.down) self.new }
        ensures run { IsRun (setting_of E.begin E.at self.new) self.new.book }
    {
        if !self.over {
            self.end_all(Entry::Starve { worker }, End::NoMemory);
        }
    }
}
