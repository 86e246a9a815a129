ghost use Rattle.std.specs.Prelude.{◌≡◌, None, Some, true};
ghost use Rattle.resource_table.specs.Steps.{told};
ghost use Rattle.world_rules.specs.declared.entry.Side.TheVariants.{Answer, Opened, Pending};
ghost use Rattle.world_rules.specs.World.{Out};
ghost use Rattle.node_state.specs.Fits.{is_from_outside};
ghost use Rattle.node_state.specs.Seats.{meaning};
ghost use Rattle.host_calls.specs.Shown.{brought_by, streams_by};
ghost use Rattle.process_store.specs.Gives.{ComesBack, IsGivenBack};
ghost use Rattle.process_store.specs.Seen.{setting_of, world_of};

use super::Node;
use super::give::no_stream;
use crate::replies::{id_of, written_reply};
use crate::times::longer_row;
use crate::{streams_are_few, streams_pass_on, streams_stand_once};
use host_calls::Proc;
use host_port::{Calls, Engine, Reply};
use node_laws::outside_replies_fit;
use node_mirror::{
    a_give_is_allowed, a_pending_give_mirrors, an_answer_mirrors, an_entry_stands,
    an_opening_mirrors,
};
use outside::Outside;
use resource_table::Owned;
use world_rules::{Entry, Halt, Side, sound};

impl<E: Engine, O: Outside> Node<E, O> {
    /// Takes back a process whose request the outside can't answer yet: it goes to the back of the ready list, with the
    /// ask that it owes.
    fn give_pending(&mut self, worker: u8, proc: Proc<E, O>, calls: Calls, halt: Halt)
        requires out { ((world_of self.old).process proc.start.pid).stage ≡ Out worker }
        requires comes { ComesBack (meaning E.stands E.phase E.memory) (setting_of E.begin E.at self.old)
            (told O.Stream.taken O.Stream.put O.Stream.faults O.Stream.waits O.Stream.empties O.Stream.down) self.old
            worker proc.start.pid (brought_by proc calls halt Pending) (streams_by proc None) }
        ensures { IsGivenBack (setting_of E.begin E.at self.new)
            (told O.Stream.taken O.Stream.put O.Stream.faults O.Stream.waits O.Stream.empties O.Stream.down)
            self.old self.new worker proc.start.pid (brought_by proc calls halt Pending) }
    {
        sound();
        a_pending_give_mirrors::<E>();
        a_give_is_allowed::<E>();
        an_entry_stands::<E>();
        streams_pass_on::<E, O::Stream>();
        streams_are_few::<E, O>();
        self.journal.add(Entry::Give {
            worker,
            pid: proc.start.pid,
            calls,
            fuel: proc.fuel,
            halt,
            side: Side::Pending,
        });
        let row = longer_row(self.store.row(), self.journal.len());
        self.store.bring_home(proc, 0);
        self.store.set_row(row);
        self.store.requeue();
    }

    /// Takes back a process whose request the outside has answered, and tells it the answer.
    fn give_answered(
        &mut self,
        worker: u8,
        mut proc: Proc<E, O>,
        calls: Calls,
        halt: Halt,
        reply: Reply,
    )
        requires out { ((world_of self.old).process proc.start.pid).stage ≡ Out worker }
        requires comes { ComesBack (meaning E.stands E.phase E.memory) (setting_of E.begin E.at self.old)
            (told O.Stream.taken O.Stream.put O.Stream.faults O.Stream.waits O.Stream.empties O.Stream.down) self.old
            worker proc.start.pid (brought_by proc calls halt (Answer reply)) (streams_by proc None) }
        ensures { IsGivenBack (setting_of E.begin E.at self.new)
            (told O.Stream.taken O.Stream.put O.Stream.faults O.Stream.waits O.Stream.empties O.Stream.down)
            self.old self.new worker proc.start.pid (brought_by proc calls halt (Answer reply)) }
    {
        sound();
        an_answer_mirrors::<E>();
        outside_replies_fit::<E>();
        a_give_is_allowed::<E>();
        an_entry_stands::<E>();
        streams_pass_on::<E, O::Stream>();
        streams_are_few::<E, O>();
        // The node stands for its journal, so that its engine owes an ask that this reply fits.
        let _streams = self.store.streams();
        proc.engine.answer(&reply);
        proc.owed = None;
        self.journal.add(Entry::Give {
            worker,
            pid: proc.start.pid,
            calls,
            fuel: proc.fuel,
            halt,
            side: Side::Answer(reply),
        });
        self.store.bring_home(proc, 0);
        self.store.set_row(0);
        self.store.requeue();
    }

    /// Takes back a process for which a stream was opened: the next number is drawn for it, it comes into the table,
    /// and the process is told 0 and the number.
    fn give_opened(
        &mut self,
        worker: u8,
        mut proc: Proc<E, O>,
        calls: Calls,
        halt: Halt,
        stream: O::Stream,
    )
        requires out { ((world_of self.old).process proc.start.pid).stage ≡ Out worker }
        requires comes { ComesBack (meaning E.stands E.phase E.memory) (setting_of E.begin E.at self.old)
            (told O.Stream.taken O.Stream.put O.Stream.faults O.Stream.waits O.Stream.empties O.Stream.down) self.old
            worker proc.start.pid (brought_by proc calls halt Opened) (streams_by proc (Some stream)) }
        ensures { IsGivenBack (setting_of E.begin E.at self.new)
            (told O.Stream.taken O.Stream.put O.Stream.faults O.Stream.waits O.Stream.empties O.Stream.down)
            self.old self.new worker proc.start.pid (brought_by proc calls halt Opened) }
    {
        sound();
        an_opening_mirrors::<E>();
        outside_replies_fit::<E>();
        a_give_is_allowed::<E>();
        an_entry_stands::<E>();
        streams_pass_on::<E, O::Stream>();
        streams_are_few::<E, O>();
        streams_stand_once::<E>();
        let number = self.store.streams();
        let Some(ask) = proc.owed else { unreachable!() };
        // The engine's memory has the bytes there, so that the number of its first byte is below 2^32.
        let _pages = proc.engine.pages();
        proc.engine
            .answer(&written_reply(0, id_of(&ask) as u32, number));
        proc.owed = None;
        match proc.table.put(Owned::of(number, stream)) {
            Ok(()) => {}
            // There was a place for it.
            Err(_) => unreachable!(),
        }
        self.journal.add(Entry::Give {
            worker,
            pid: proc.start.pid,
            calls,
            fuel: proc.fuel,
            halt,
            side: Side::Opened,
        });
        self.store.bring_home(proc, 1);
        self.store.set_row(0);
        self.store.requeue();
    }

    /// Takes back a process whose request the outside was asked.
    pub(super) fn give_outside(
        &mut self,
        worker: u8,
        proc: Proc<E, O>,
        calls: Calls,
        halt: Halt,
        side: Side,
        arrived: Option<O::Stream>,
    )
        requires out { ((world_of self.old).process proc.start.pid).stage ≡ Out worker }
        requires outside { is_from_outside side ≡ true }
        requires comes { ComesBack (meaning E.stands E.phase E.memory) (setting_of E.begin E.at self.old)
            (told O.Stream.taken O.Stream.put O.Stream.faults O.Stream.waits O.Stream.empties O.Stream.down) self.old
            worker proc.start.pid (brought_by proc calls halt side) (streams_by proc arrived) }
        ensures { IsGivenBack (setting_of E.begin E.at self.new)
            (told O.Stream.taken O.Stream.put O.Stream.faults O.Stream.waits O.Stream.empties O.Stream.down)
            self.old self.new worker proc.start.pid (brought_by proc calls halt side) }
    {
        match side {
            Side::Pending => {
                no_stream(arrived);
                self.give_pending(worker, proc, calls, halt)
            }
            Side::Answer(reply) => {
                no_stream(arrived);
                self.give_answered(worker, proc, calls, halt, reply)
            }
            Side::Opened => match arrived {
                Some(stream) => self.give_opened(worker, proc, calls, halt, stream),
                None => unreachable!(),
            },
            _ => unreachable!(),
        }
    }
}
