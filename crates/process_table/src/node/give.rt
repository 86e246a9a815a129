ghost use Rattle.std.specs.Prelude.{◌≡◌, ◌+◌, ◌<◌, ◌≤◌, ◌^◌, ◌↔◌, [], IsTrue, None};
ghost use Rattle.std.specs.Prelude.{length, slice_get, vec_len, vec_capacity};
ghost use Rattle.resource_table.specs.Steps.{Sheds, told};
ghost use Rattle.world_rules.specs.declared.entry.Side.TheVariants.{Nothing};
ghost use Rattle.world_rules.specs.declared.halt.End.{End};
ghost use Rattle.world_rules.specs.declared.halt.Halt.TheVariants.{Slice};
ghost use Rattle.world_rules.specs.Lives.{IsRun};
ghost use Rattle.world_rules.specs.Views.{Ends, want_of};
ghost use Rattle.world_rules.specs.World.{Out, Doomed};
ghost use Rattle.node_state.specs.Fits.{TurnFits, give_of};
ghost use Rattle.node_state.specs.Seats.{meaning};
ghost use Rattle.node_state.specs.Streaming.{StreamsFit, arrived_as, streamed_after};
ghost use Rattle.host_calls.specs.Shown.{brought_by, brought_in, streams_by, streams_in};
ghost use Rattle.process_table.specs.Gives.{ComesBack, IsGivenBack};
ghost use Rattle.process_table.specs.Seen.{KeepsStreams, setting_of, world_of};
ghost use Rattle.process_table.specs.Holds.{slot_in};
ghost use Rattle.process_table.specs.Takes.{SameTerms, RecordsGive, IsFatedSlot};

use super::Node;
use super::take::last_of;
use crate::closing::{close_all, close_mail, close_proc};
use crate::place::{Place, set_place};
use crate::times::time_after;
use host_calls::{Proc, Turn};
use host_port::{Calls, Engine};
use node_laws::{
    a_doomed_give_keeps, a_slice_keeps, an_end_keeps, streams_keep_standing, streams_stand_apart,
};
use outside::{Outside, Stream};
use resource_table::{Owned, Shed};
use std::mem::replace;
use tagged_mailbox::Mailbox;
use world_rules::{Entry, Halt, Side, sound, touches};

/// The process of this number is doomed under a worker.
fn is_fated<E: Engine, O: Outside>(places: &[Place<E, O>], pid: u64) -> bool
    ensures { IsTrue result ↔ IsFatedSlot (slot_in (slice_get places.now pid)) }
{
    matches!(places.get(pid as usize), Some(Place::Fated(_, _)))
}

/// Where no stream was opened, none is let go.
pub(super) fn no_stream<S: Stream>(arrived: Option<S>)
    requires none { arrived ≡ None }
{
    match arrived {
        None => {}
        Some(_) => unreachable!(),
    }
}

/// A stream that was opened for a doomed process gets this number, is shut, and moves behind the closed ones. The
/// result is the next number. The shed is empty before and after.
fn close_arrived<S: Stream>(
    closed: &mut Vec<Owned<S>>,
    shed: &mut Shed<S>,
    number: u64,
    arrived: Option<S>,
) -> u64
    requires empty { shed.old ≡ [] }
    requires room { vec_len closed.old + 1 ≤ vec_capacity closed.old }
    requires few { number + 1 < 2 ^ 63 }
    ensures closed { Sheds (told S.taken S.put S.faults S.waits S.empties S.down) (arrived_as number arrived)
        closed.old.items closed.new.items }
    ensures shed { shed.new ≡ [] }
    ensures capacity { vec_capacity closed.new ≡ vec_capacity closed.old }
    ensures next { result ≡ number + length (arrived_as number arrived) }
{
    let Some(stream) = arrived else {
        return number;
    };
    shed.shut(Owned::of(number, stream));
    close_all(closed, shed);
    number + 1
}

impl<E: Engine, O: Outside> Node<E, O> {
    /// Takes back a process that a bound of its turn has stopped.
    fn give_slice(&mut self, worker: u8, mut proc: Proc<E, O>, calls: Calls)
        requires out { ((world_of self.old).process proc.start.pid).stage ≡ Out worker }
        requires comes { ComesBack (meaning E.stands E.phase E.memory) (setting_of E.begin E.at self.old)
            (told O.Stream.taken O.Stream.put O.Stream.faults O.Stream.waits O.Stream.empties O.Stream.down) self.old
            worker proc.start.pid (brought_by proc calls Slice Nothing) (streams_by proc None) }
        ensures { IsGivenBack (setting_of E.begin E.at self.new)
            (told O.Stream.taken O.Stream.put O.Stream.faults O.Stream.waits O.Stream.empties O.Stream.down)
            self.old self.new worker proc.start.pid (brought_by proc calls Slice Nothing) }
    {
        sound();
        a_slice_keeps::<E>();
        streams_keep_standing::<E, O::Stream>();
        streams_stand_apart::<E>();
        let pid = proc.start.pid;
        close_all(&mut self.closed, &mut proc.shed);
        self.journal.add(Entry::Give {
            worker,
            pid,
            calls,
            fuel: proc.fuel,
            halt: Halt::Slice,
            side: Side::Nothing,
        });
        set_place(&mut self.places, pid, Place::Home(proc));
        self.queue.push_reserved(pid);
        self.row = 0;
        self.out -= 1;
    }

    /// Takes back a process that ends by its halt. What its calls closed is closed first, then what it has in hand,
    /// then what lies in its mailbox.
    fn give_end(&mut self, worker: u8, mut proc: Proc<E, O>, calls: Calls, halt: Halt)
        requires out { ((world_of self.old).process proc.start.pid).stage ≡ Out worker }
        requires ends { (end : End) × (want_of halt ≡ Ends end) }
        requires comes { ComesBack (meaning E.stands E.phase E.memory) (setting_of E.begin E.at self.old)
            (told O.Stream.taken O.Stream.put O.Stream.faults O.Stream.waits O.Stream.empties O.Stream.down) self.old
            worker proc.start.pid (brought_by proc calls halt Nothing) (streams_by proc None) }
        ensures { IsGivenBack (setting_of E.begin E.at self.new)
            (told O.Stream.taken O.Stream.put O.Stream.faults O.Stream.waits O.Stream.empties O.Stream.down)
            self.old self.new worker proc.start.pid (brought_by proc calls halt Nothing) }
    {
        sound();
        an_end_keeps::<E>();
        streams_keep_standing::<E, O::Stream>();
        streams_stand_apart::<E>();
        let pid = proc.start.pid;
        close_all(&mut self.closed, &mut proc.shed);
        self.journal.add(Entry::Give {
            worker,
            pid,
            calls,
            fuel: proc.fuel,
            halt,
            side: Side::Nothing,
        });
        self.journal.ended(last_of(pid, &proc));
        close_proc(proc, &mut self.closed);
        set_place(&mut self.places, pid, Place::Gone);
        let mail = replace(&mut self.mail[pid as usize], Mailbox::new(self.alloc));
        close_mail(mail, &mut self.shed, &mut self.closed);
        self.row = 0;
        self.out -= 1;
        // Process 1 is the only one that can be given back so far, and the run ends with it.
        self.over = true;
    }

    /// Takes back a process that was doomed while it was out. A stream that was opened for it gets its number, and is
    /// closed before what the process has in hand.
    fn give_doomed(
        &mut self,
        worker: u8,
        mut proc: Proc<E, O>,
        calls: Calls,
        halt: Halt,
        side: Side,
        arrived: Option<O::Stream>,
    )
        requires doomed { (end : End) × (((world_of self.old).process proc.start.pid).stage ≡ Doomed worker end) }
        requires comes { ComesBack (meaning E.stands E.phase E.memory) (setting_of E.begin E.at self.old)
            (told O.Stream.taken O.Stream.put O.Stream.faults O.Stream.waits O.Stream.empties O.Stream.down) self.old
            worker proc.start.pid (brought_by proc calls halt side) (streams_by proc arrived) }
        ensures { IsGivenBack (setting_of E.begin E.at self.new)
            (told O.Stream.taken O.Stream.put O.Stream.faults O.Stream.waits O.Stream.empties O.Stream.down)
            self.old self.new worker proc.start.pid (brought_by proc calls halt side) }
    {
        sound();
        touches();
        a_doomed_give_keeps::<E>();
        streams_keep_standing::<E, O::Stream>();
        streams_stand_apart::<E>();
        let pid = proc.start.pid;
        close_all(&mut self.closed, &mut proc.shed);
        self.streams = close_arrived(&mut self.closed, &mut proc.shed, self.streams, arrived);
        self.time = time_after(&side, self.time);
        self.journal.add(Entry::Give {
            worker,
            pid,
            calls,
            fuel: proc.fuel,
            halt,
            side,
        });
        self.journal.ended(last_of(pid, &proc));
        close_proc(proc, &mut self.closed);
        set_place(&mut self.places, pid, Place::Gone);
        self.row = 0;
        self.out -= 1;
    }

    /// Takes back what a worker's turn made of a process, and records it in the place that was kept for it. The turn
    /// must fit the world; then it cannot be refused: where a send would need memory that is refused, it is answered
    /// 12.
    pub fn give(&mut self, worker: u8, turn: Turn<E, O>)
        requires fits { TurnFits (meaning E.stands E.phase E.memory) (setting_of E.begin E.at self.old)
            self.old.book.births (world_of self.old) worker turn.proc.start.pid (brought_in turn) }
        requires streams { StreamsFit
            (told O.Stream.taken O.Stream.put O.Stream.faults O.Stream.waits O.Stream.empties O.Stream.down)
            (streamed_after ((world_of self.old).process turn.proc.start.pid)
            (give_of worker turn.proc.start.pid (brought_in turn)) (world_of self.old).streamed)
            turn.side (streams_in turn) }
        ensures same { SameTerms self.old self.new }
        ensures given { RecordsGive self.old.book self.new.book worker turn.proc.start.pid (brought_in turn) }
        ensures spare { self.old.spare ≤ self.new.spare }
        ensures streams { KeepsStreams
            (told O.Stream.taken O.Stream.put O.Stream.faults O.Stream.waits O.Stream.empties O.Stream.down) self.new }
        ensures run { IsRun (setting_of E.begin E.at self.new) self.new.book }
    {
        let Turn {
            proc,
            calls,
            halt,
            side,
            arrived,
        } = turn;
        if is_fated(self.places.as_slice(), proc.start.pid) {
            return self.give_doomed(worker, proc, calls, halt, side, arrived);
        }
        match halt {
            Halt::Slice => {
                no_stream(arrived);
                let Side::Nothing = side else { unreachable!() };
                self.give_slice(worker, proc, calls)
            }
            Halt::Asks(request) => self.give_request(worker, proc, calls, request, side, arrived),
            Halt::Again => self.give_outside(worker, proc, calls, Halt::Again, side, arrived),
            other => {
                no_stream(arrived);
                let Side::Nothing = side else { unreachable!() };
                self.give_end(worker, proc, calls, other)
            }
        }
    }
}
