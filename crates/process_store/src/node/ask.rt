ghost use Rattle.std.specs.Prelude.{◌≡◌, None, if◌then◌else◌};
ghost use Rattle.resource_table.specs.Steps.{told};
ghost use Rattle.world_rules.specs.declared.entry.Side.TheVariants.{NoMemory};
ghost use Rattle.world_rules.specs.declared.halt.Halt.TheVariants.{Asks};
ghost use Rattle.world_rules.specs.Calls.{call_of};
ghost use Rattle.world_rules.specs.Lives.{IsRun};
ghost use Rattle.world_rules.specs.World.{Out};
ghost use Rattle.node_state.specs.Rows.{AllHaveRows};
ghost use Rattle.node_state.specs.Seats.{meaning};
ghost use Rattle.host_calls.specs.Shown.{brought_by, streams_by};
ghost use Rattle.process_store.specs.Gives.{ComesBack, IsGivenBack};
ghost use Rattle.process_store.specs.Performing.{IsPerformed};
ghost use Rattle.process_store.specs.Seen.{setting_of, world_of};

use super::Node;
use super::give::no_stream;
use crate::times::time_after;
use crate::{perform, streams_are_few, streams_pass_on};
use host_calls::Proc;
use host_port::{Calls, Engine, Request};
use node_mirror::{
    a_give_is_allowed, an_ask_mirrors, an_entry_stands, replies_fit, waits_are_answered,
};
use outside::Outside;
use world_rules::{Entry, Halt, Side, sound};

/// What a call of the world is recorded beside: what came, or the refusal of memory.
fn beside_call(refused: bool, side: Side) -> Side
    ensures { result ≡ (if refused then NoMemory else side) }
{
    if refused {
        return Side::NoMemory;
    }
    side
}

impl<E: Engine, O: Outside> Node<E, O> {
    /// Takes back a process that asks for a call of the world, and performs it.
    fn give_call(
        &mut self,
        worker: u8,
        proc: Proc<E, O>,
        calls: Calls,
        request: Request,
        side: Side,
    )
        requires out { ((world_of self.old).process proc.start.pid).stage ≡ Out worker }
        requires call { IsPerformed (call_of request) }
        requires comes { ComesBack (meaning E.stands E.phase E.memory) (setting_of E.begin E.at self.old)
            (told O.Stream.taken O.Stream.put O.Stream.faults O.Stream.waits O.Stream.empties O.Stream.down) self.old
            worker proc.start.pid (brought_by proc calls (Asks request) side) (streams_by proc None) }
        ensures { IsGivenBack (setting_of E.begin E.at self.new)
            (told O.Stream.taken O.Stream.put O.Stream.faults O.Stream.waits O.Stream.empties O.Stream.down)
            self.old self.new worker proc.start.pid (brought_by proc calls (Asks request) side) }
    {
        sound();
        an_ask_mirrors::<E>();
        replies_fit::<E>();
        waits_are_answered::<E>();
        a_give_is_allowed::<E>();
        an_entry_stands::<E>();
        streams_pass_on::<E, O::Stream>();
        streams_are_few::<E, O>();
        let pid = proc.start.pid;
        let fuel = proc.fuel;
        let time = time_after(&side, self.store.time());
        self.store.bring(proc, request.ask, time);
        let refused = perform(&mut self.store, pid, &request);
        self.journal.add(Entry::Give {
            worker,
            pid,
            calls,
            fuel,
            halt: Halt::Asks(request),
            side: beside_call(refused, side),
        });
        self.store.set_row(0);
        self.store.requeue();
    }

    /// Takes back a process that asks for a call of the world, or for one of the outside.
    pub(super) fn give_request(
        &mut self,
        worker: u8,
        proc: Proc<E, O>,
        calls: Calls,
        request: Request,
        side: Side,
        arrived: Option<O::Stream>,
    )
        requires out { ((world_of self.old).process proc.start.pid).stage ≡ Out worker }
        requires rows { AllHaveRows E.may_ask self.old.programs }
        requires run { IsRun (setting_of E.begin E.at self.old) self.old.book }
        requires comes { ComesBack (meaning E.stands E.phase E.memory) (setting_of E.begin E.at self.old)
            (told O.Stream.taken O.Stream.put O.Stream.faults O.Stream.waits O.Stream.empties O.Stream.down) self.old
            worker proc.start.pid (brought_by proc calls (Asks request) side) (streams_by proc arrived) }
        ensures { IsGivenBack (setting_of E.begin E.at self.new)
            (told O.Stream.taken O.Stream.put O.Stream.faults O.Stream.waits O.Stream.empties O.Stream.down)
            self.old self.new worker proc.start.pid (brought_by proc calls (Asks request) side) }
    {
        match side {
            Side::Nothing | Side::Clock(_) => {
                no_stream(arrived);
                self.give_call(worker, proc, calls, request, side)
            }
            other => self.give_outside(worker, proc, calls, Halt::Asks(request), other, arrived),
        }
    }
}
