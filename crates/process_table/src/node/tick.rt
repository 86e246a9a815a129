ghost use Rattle.std.specs.Prelude.{◌≡◌, ◌↔◌, ◌≤◌, IsTrue, false};
ghost use Rattle.world_rules.specs.Lives.{IsRun};
ghost use Rattle.resource_table.specs.Steps.{told};
ghost use Rattle.host_calls.specs.Outsides.{OutsideKeeps, telling};
ghost use Rattle.process_table.specs.Seen.{KeepsStreams, setting_of, world_of};
ghost use Rattle.process_table.specs.Takes.{SameTerms, IsTimed, Ticks};

use super::Node;
use crate::answers::late_reply;
use crate::place::{Place, set_place};
use crate::times::longer_row;
use host_port::Engine;
use node_laws::streams_keep_standing;
use outside::Outside;
use std::mem::replace;
use world_rules::{Entry, sound};

impl<E: Engine, O: Outside> Node<E, O> {
    /// Whether somebody waits with a deadline.
    pub fn timed(&self) -> bool
        ensures { IsTrue result ↔ IsTimed (world_of self.now) }
    {
        sound();
        self.queue.timed()
    }

    /// Reads the clock, and ends the waits whose deadline has come. A tick that ends none is counted in the row.
    pub fn tick(&mut self, worker: u8, outside: &mut O)
        requires spare { 1 ≤ self.old.spare }
        requires going { (world_of self.old).over ≡ false }
        requires timed { IsTimed (world_of self.old) }
        ensures same { SameTerms self.old self.new }
        ensures ticks { Ticks self.old self.new worker (O.clock outside.old) }
        ensures streams { KeepsStreams
            (told O.Stream.taken O.Stream.put O.Stream.faults O.Stream.waits O.Stream.empties O.Stream.down) self.new }
        ensures outside { OutsideKeeps
            (telling (O.faults outside.old) (O.waits outside.old) (O.rests outside.old) (O.clock outside.old))
            (telling (O.faults outside.new) (O.waits outside.new) (O.rests outside.new) (O.clock outside.new)) }
        ensures entered { O.entered outside.new ≡ O.entered outside.old }
        ensures run { IsRun (setting_of E.begin E.at self.new) self.new.book }
    {
        sound();
        streams_keep_standing::<E, O::Stream>();
        let now = outside.now();
        let time = self.time.max(now);
        self.time = time;
        self.journal.add(Entry::Tick { worker, now });
        self.spare -= 1;
        // Process 1 alone can wait so far.
        let Some(pid) = self.queue.due(time) else {
            self.row = longer_row(self.row, self.journal.len());
            return;
        };
        let place = replace(&mut self.places[pid as usize], Place::Gone);
        let Place::Asleep(mut proc, ask) = place else {
            unreachable!()
        };
        proc.engine.answer(&late_reply(ask.call));
        set_place(&mut self.places, pid, Place::Home(proc));
        self.queue.push_reserved(pid);
        self.row = 0;
    }
}
