ghost use Rattle.std.specs.Prelude.{◌≡◌, ◌≤◌, false, true};
ghost use Rattle.resource_table.specs.Steps.{told};
ghost use Rattle.world_rules.specs.Lives.{IsRun};
ghost use Rattle.world_rules.specs.declared.entry.Entry.TheVariants.{Starve};
ghost use Rattle.node_state.specs.Seats.{meaning};
ghost use Rattle.process_store.specs.Seen.{KeepsStreams, setting_of, world_of};
ghost use Rattle.process_store.specs.Takes.{SameTerms, IsTaken, RecordsEntry, MayEndAll};

use super::Node;
use crate::{Taken, streams_pass_on, streams_stand_once};
use host_port::Engine;
use node_mirror::{
    a_take_stands, an_entry_stands, an_over_mirrors, deadlines_tell, strikes_follow,
};
use outside::Outside;
use world_rules::{End, Entry, sound, touches};

impl<E: Engine, O: Outside> Node<E, O> {
    /// Ends all processes, and the run, by this entry, with this end.
    fn end_all(&mut self, entry: Entry, end: End)
        requires going { (world_of self.old).over ≡ false }
        requires due { MayEndAll self.old entry end }
        ensures same { SameTerms self.old self.new }
        ensures recorded { RecordsEntry self.old.book self.new.book entry }
        ensures over { (world_of self.new).over ≡ true }
        ensures spare { self.old.spare ≤ self.new.spare }
        ensures streams { KeepsStreams
            (told O.Stream.taken O.Stream.put O.Stream.faults O.Stream.waits O.Stream.empties O.Stream.down) self.new }
        ensures run { IsRun (setting_of E.begin E.at self.new) self.new.book }
    {
        sound();
        strikes_follow();
        an_over_mirrors::<E>();
        an_entry_stands::<E>();
        streams_pass_on::<E, O::Stream>();
        self.journal.add(entry);
        self.store.strike_all(&mut self.journal, end);
        self.store.end_run();
        self.store.set_row(0);
        self.store.requeue();
    }

    /// Takes the process at the front of the ready list, and records it.
    ///
    /// `Over` comes exactly where the run is over, also by the Idle or the Stall that this call records: Idle where the
    /// run was idle for too long, and Stall where nothing is ready, no worker has a process, and nobody waits with a
    /// deadline. `Nothing` comes where nothing is ready, and the run goes on.
    pub fn take(&mut self, worker: u8) -> Taken<E, O>
        requires { 2 ≤ self.old.spare }
        ensures same { SameTerms self.old self.new }
        ensures taken { IsTaken (meaning E.stands E.phase E.memory) E.may_ask
            (told O.Stream.taken O.Stream.put O.Stream.faults O.Stream.waits O.Stream.empties O.Stream.down)
            self.old self.new worker result }
        ensures streams { KeepsStreams
            (told O.Stream.taken O.Stream.put O.Stream.faults O.Stream.waits O.Stream.empties O.Stream.down) self.new }
        ensures run { IsRun (setting_of E.begin E.at self.new) self.new.book }
    {
        sound();
        touches();
        a_take_stands::<E>();
        deadlines_tell::<E>();
        streams_pass_on::<E, O::Stream>();
        streams_stand_once::<E>();
        if self.store.is_over() {
            return Taken::Over;
        }
        if self.idle <= self.store.row() {
            self.end_all(Entry::Idle { worker }, End::Idle);
            return Taken::Over;
        }
        if let Some((pid, proc)) = self.store.take(worker) {
            self.journal.add(Entry::Take { worker, pid });
            self.spare -= 2;
            return Taken::Proc(proc);
        }
        if self.store.out() > 0 || self.store.timed() {
            return Taken::Nothing;
        }
        self.end_all(Entry::Stall { worker }, End::Stalled);
        Taken::Over
    }

    /// Ends the run for want of memory, unless it is over. Its place is kept from the start.
    pub fn starve(&mut self, worker: u8)
        ensures same { SameTerms self.old self.new }
        ensures over { (world_of self.old).over ≡ true → self.new.book ≡ self.old.book }
        ensures recorded { (world_of self.old).over ≡ false → RecordsEntry self.old.book self.new.book (Starve worker) }
        ensures ends { (world_of self.new).over ≡ true }
        ensures streams { KeepsStreams
            (told O.Stream.taken O.Stream.put O.Stream.faults O.Stream.waits O.Stream.empties O.Stream.down) self.new }
        ensures run { IsRun (setting_of E.begin E.at self.new) self.new.book }
    {
        if !self.store.is_over() {
            self.end_all(Entry::Starve { worker }, End::NoMemory);
        }
    }
}
