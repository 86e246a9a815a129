ghost use Rattle.std.specs.Prelude.{◌≡◌, ◌↔◌, ◌≤◌, IsTrue, false};
ghost use Rattle.world_rules.specs.Lives.{IsRun};
ghost use Rattle.resource_table.specs.Steps.{told};
ghost use Rattle.host_calls.specs.Outsides.{OutsideKeeps, telling};
ghost use Rattle.process_store.specs.Seen.{KeepsStreams, setting_of, world_of};
ghost use Rattle.process_store.specs.Takes.{SameTerms, IsTimed, Ticks};

use super::Node;
use crate::streams_pass_on;
use crate::times::longer_row;
use host_port::Engine;
use node_mirror::{
    a_time_mirrors, an_entry_stands, deadlines_tell, latenesses_follow, waits_are_answered,
};
use outside::Outside;
use world_rules::{Entry, sound};

impl<E: Engine, O: Outside> Node<E, O> {
    /// Whether somebody waits with a deadline.
    pub fn timed(&self) -> bool
        ensures { IsTrue result ↔ IsTimed (world_of self.now) }
    {
        deadlines_tell::<E>();
        self.store.timed()
    }

    /// Reads the clock, and ends the waits whose deadline has come. A tick that ends none is counted in the row.
    pub fn tick(&mut self, worker: u8, outside: &mut O)
        requires spare { 1 ≤ self.old.spare }
        requires going { (world_of self.old).over ≡ false }
        requires timed { IsTimed (world_of self.old) }
        ensures same { SameTerms self.old self.new }
        ensures ticks { Ticks self.old self.new worker (O.clock outside.old) }
        ensures streams { KeepsStreams
            (told O.Stream.taken O.Stream.put O.Stream.faults O.Stream.waits O.Stream.empties O.Stream.down) self.new }
        ensures outside { OutsideKeeps
            (telling (O.faults outside.old) (O.waits outside.old) (O.rests outside.old) (O.clock outside.old))
            (telling (O.faults outside.new) (O.waits outside.new) (O.rests outside.new) (O.clock outside.new)) }
        ensures entered { O.entered outside.new ≡ O.entered outside.old }
        ensures run { IsRun (setting_of E.begin E.at self.new) self.new.book }
    {
        sound();
        latenesses_follow();
        a_time_mirrors::<E>();
        waits_are_answered::<E>();
        an_entry_stands::<E>();
        streams_pass_on::<E, O::Stream>();
        let now = outside.now();
        self.store.set_time(now);
        self.journal.add(Entry::Tick { worker, now });
        self.spare -= 1;
        let row = if self.store.wake_due() {
            0
        } else {
            longer_row(self.store.row(), self.journal.len())
        };
        self.store.set_row(row);
        self.store.requeue();
    }
}
