ghost use Rattle.std.specs.Prelude.{◌≡◌, ◌≤◌, None};
ghost use Rattle.resource_table.specs.Steps.{told};
ghost use Rattle.world_rules.specs.declared.entry.Side.TheVariants.{Nothing};
ghost use Rattle.world_rules.specs.declared.halt.End.{End};
ghost use Rattle.world_rules.specs.declared.halt.Halt.TheVariants.{Slice};
ghost use Rattle.world_rules.specs.Lives.{IsRun};
ghost use Rattle.world_rules.specs.Views.{Ends, want_of};
ghost use Rattle.world_rules.specs.World.{Out, Doomed};
ghost use Rattle.node_state.specs.Fits.{give_of};
ghost use Rattle.node_state.specs.Seats.{meaning};
ghost use Rattle.node_mirror.specs.Fits.{TurnFits};
ghost use Rattle.node_state.specs.Streaming.{StreamsFit, streamed_after};
ghost use Rattle.host_calls.specs.Shown.{brought_by, brought_in, streams_by, streams_in};
ghost use Rattle.process_store.specs.Gives.{ComesBack, IsGivenBack};
ghost use Rattle.process_store.specs.Seen.{KeepsStreams, setting_of, world_of};
ghost use Rattle.process_store.specs.Takes.{SameTerms, RecordsGive};

use super::Node;
use crate::times::time_after;
use crate::{streams_are_few, streams_pass_on};
use host_calls::{Proc, Turn};
use host_port::{Calls, Engine};
use node_mirror::{
    a_doomed_give_mirrors, a_give_is_allowed, a_slice_mirrors, an_end_mirrors, an_entry_stands,
    an_over_mirrors,
};
use outside::{Outside, Stream};
use world_rules::{Entry, Halt, Side, sound};

/// Where no stream was opened, none is let go.
pub(super) fn no_stream<S: Stream>(arrived: Option<S>)
    requires none { arrived ≡ None }
{
    match arrived {
        None => {}
        Some(_) => unreachable!(),
    }
}

impl<E: Engine, O: Outside> Node<E, O> {
    /// Takes back a process that a bound of its turn has stopped.
    fn give_slice(&mut self, worker: u8, proc: Proc<E, O>, calls: Calls)
        requires out { ((world_of self.old).process proc.start.pid).stage ≡ Out worker }
        requires comes { ComesBack (meaning E.stands E.phase E.memory) (setting_of E.begin E.at self.old)
            (told O.Stream.taken O.Stream.put O.Stream.faults O.Stream.waits O.Stream.empties O.Stream.down) self.old
            worker proc.start.pid (brought_by proc calls Slice Nothing) (streams_by proc None) }
        ensures { IsGivenBack (setting_of E.begin E.at self.new)
            (told O.Stream.taken O.Stream.put O.Stream.faults O.Stream.waits O.Stream.empties O.Stream.down)
            self.old self.new worker proc.start.pid (brought_by proc calls Slice Nothing) }
    {
        sound();
        a_slice_mirrors::<E>();
        a_give_is_allowed::<E>();
        an_entry_stands::<E>();
        streams_pass_on::<E, O::Stream>();
        streams_are_few::<E, O>();
        self.journal.add(Entry::Give {
            worker,
            pid: proc.start.pid,
            calls,
            fuel: proc.fuel,
            halt: Halt::Slice,
            side: Side::Nothing,
        });
        self.store.bring_home(proc, 0);
        self.store.set_row(0);
        self.store.requeue();
    }

    /// Takes back a process that ends by its halt. What its calls closed is closed first, then what it has in hand,
    /// then what lies in its mailbox.
    fn give_end(&mut self, worker: u8, proc: Proc<E, O>, calls: Calls, halt: Halt)
        requires out { ((world_of self.old).process proc.start.pid).stage ≡ Out worker }
        requires ends { (end : End) × (want_of halt ≡ Ends end) }
        requires comes { ComesBack (meaning E.stands E.phase E.memory) (setting_of E.begin E.at self.old)
            (told O.Stream.taken O.Stream.put O.Stream.faults O.Stream.waits O.Stream.empties O.Stream.down) self.old
            worker proc.start.pid (brought_by proc calls halt Nothing) (streams_by proc None) }
        ensures { IsGivenBack (setting_of E.begin E.at self.new)
            (told O.Stream.taken O.Stream.put O.Stream.faults O.Stream.waits O.Stream.empties O.Stream.down)
            self.old self.new worker proc.start.pid (brought_by proc calls halt Nothing) }
    {
        an_end_mirrors::<E>();
        an_over_mirrors::<E>();
        a_give_is_allowed::<E>();
        an_entry_stands::<E>();
        streams_pass_on::<E, O::Stream>();
        streams_are_few::<E, O>();
        self.journal.add(Entry::Give {
            worker,
            pid: proc.start.pid,
            calls,
            fuel: proc.fuel,
            halt,
            side: Side::Nothing,
        });
        self.store.bring_ended(&mut self.journal, proc);
        // Process 1 is the only one that can be given back so far, and the run ends with it.
        self.store.end_run();
        self.store.set_row(0);
        self.store.requeue();
    }

    /// Takes back a process that was doomed while it was out. A stream that was opened for it gets its number, and is
    /// closed before what the process has in hand.
    fn give_doomed(
        &mut self,
        worker: u8,
        proc: Proc<E, O>,
        calls: Calls,
        halt: Halt,
        side: Side,
        arrived: Option<O::Stream>,
    )
        requires doomed { (end : End) × (((world_of self.old).process proc.start.pid).stage ≡ Doomed worker end) }
        requires comes { ComesBack (meaning E.stands E.phase E.memory) (setting_of E.begin E.at self.old)
            (told O.Stream.taken O.Stream.put O.Stream.faults O.Stream.waits O.Stream.empties O.Stream.down) self.old
            worker proc.start.pid (brought_by proc calls halt side) (streams_by proc arrived) }
        ensures { IsGivenBack (setting_of E.begin E.at self.new)
            (told O.Stream.taken O.Stream.put O.Stream.faults O.Stream.waits O.Stream.empties O.Stream.down)
            self.old self.new worker proc.start.pid (brought_by proc calls halt side) }
    {
        a_doomed_give_mirrors::<E>();
        an_over_mirrors::<E>();
        a_give_is_allowed::<E>();
        an_entry_stands::<E>();
        streams_pass_on::<E, O::Stream>();
        streams_are_few::<E, O>();
        let time = time_after(&side, self.store.time());
        self.journal.add(Entry::Give {
            worker,
            pid: proc.start.pid,
            calls,
            fuel: proc.fuel,
            halt,
            side,
        });
        self.store
            .bring_doomed(&mut self.journal, proc, arrived, time);
        // Process 1 is the only one so far, and the run ends with it, where it isn't over already.
        self.store.end_run();
        self.store.set_row(0);
        self.store.requeue();
    }

    /// Takes back what a worker's turn made of a process, and records it in the place that was kept for it. The turn
    /// must fit the world; then it cannot be refused: where a send would need memory that is refused, it is answered
    /// 12.
    pub fn give(&mut self, worker: u8, turn: Turn<E, O>)
        requires fits { TurnFits (meaning E.stands E.phase E.memory) (setting_of E.begin E.at self.old)
            self.old.book.births (world_of self.old) worker turn.proc.start.pid (brought_in turn) }
        requires streams { StreamsFit
            (told O.Stream.taken O.Stream.put O.Stream.faults O.Stream.waits O.Stream.empties O.Stream.down)
            (streamed_after ((world_of self.old).process turn.proc.start.pid)
            (give_of worker turn.proc.start.pid (brought_in turn)) (world_of self.old).streamed)
            turn.side (streams_in turn) }
        ensures same { SameTerms self.old self.new }
        ensures given { RecordsGive self.old.book self.new.book worker turn.proc.start.pid (brought_in turn) }
        ensures spare { self.old.spare ≤ self.new.spare }
        ensures streams { KeepsStreams
            (told O.Stream.taken O.Stream.put O.Stream.faults O.Stream.waits O.Stream.empties O.Stream.down) self.new }
        ensures run { IsRun (setting_of E.begin E.at self.new) self.new.book }
    {
        let Turn {
            proc,
            calls,
            halt,
            side,
            arrived,
        } = turn;
        if self.store.is_fated(proc.start.pid) {
            return self.give_doomed(worker, proc, calls, halt, side, arrived);
        }
        match halt {
            Halt::Slice => {
                no_stream(arrived);
                let Side::Nothing = side else { unreachable!() };
                self.give_slice(worker, proc, calls)
            }
            Halt::Asks(request) => self.give_request(worker, proc, calls, request, side, arrived),
            Halt::Again => self.give_outside(worker, proc, calls, Halt::Again, side, arrived),
            other => {
                no_stream(arrived);
                let Side::Nothing = side else { unreachable!() };
                self.give_end(worker, proc, calls, other)
            }
        }
    }
}
