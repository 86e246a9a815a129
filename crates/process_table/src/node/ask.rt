ghost use Rattle.std.specs.Prelude.{◌≡◌, ◌<◌, None};
ghost use Rattle.std.specs.FinMap.{len};
ghost use Rattle.resource_table.specs.Steps.{told};
ghost use Rattle.world_rules.specs.declared.entry.Side.TheVariants.{Nothing, Clock};
ghost use Rattle.world_rules.specs.declared.halt.Halt.TheVariants.{Asks};
ghost use Rattle.world_rules.specs.World.{Out};
ghost use Rattle.node_state.specs.Rows.{AllHaveRows};
ghost use Rattle.node_state.specs.Seats.{meaning};
ghost use Rattle.host_calls.specs.Shown.{brought_by, streams_by};
ghost use Rattle.process_table.specs.Gives.{ComesBack, IsGivenBack};
ghost use Rattle.process_table.specs.Holds.{SetsDeadline};
ghost use Rattle.process_table.specs.Seen.{setting_of, world_of};

use super::Node;
use super::give::no_stream;
use crate::answers::{count_sent, empty_reply, number_reply, post_code, post_side, receive_code};
use crate::closing::close_all;
use crate::mailbox::{put_message, take_wanted};
use crate::place::{Place, set_place};
use crate::times::deadline_of;
use host_calls::Proc;
use host_port::{Calls, Engine, Request};
use node_laws::{
    a_receive_keeps, a_send_keeps, a_sleep_keeps, a_sleep_waits_keeps, a_wait_keeps,
    streams_keep_standing, streams_stand_apart,
};
use node_state::Receipt;
use outside::Outside;
use run_queue::Queue;
use world_rules::{Entry, Halt, Side, sound};

/// The number of the call sleep_ms.
const SLEEP_MS: u8 = 17;

/// Gives a process that waits its deadline, where its wait has an end.
fn set_wait(queue: &mut Queue, pid: u64, deadline: Option<u64>)
    requires { len queue.old.deadlines < queue.old.room }
    ensures deadlines { SetsDeadline queue.old.deadlines queue.new.deadlines pid deadline }
    ensures ready { queue.new.ready ≡ queue.old.ready }
    ensures room { queue.new.room ≡ queue.old.room }
{
    if let Some(at) = deadline {
        queue.set_deadline(pid, at);
    }
}

impl<E: Engine, O: Outside> Node<E, O> {
    /// Takes back a process that asks for a send, and answers it.
    fn give_send(&mut self, worker: u8, mut proc: Proc<E, O>, calls: Calls, request: Request)
        requires out { ((world_of self.old).process proc.start.pid).stage ≡ Out worker }
        requires call { request.ask.call ≡ 8 }
        requires comes { ComesBack (meaning E.stands E.phase E.memory) (setting_of E.begin E.at self.old)
            (told O.Stream.taken O.Stream.put O.Stream.faults O.Stream.waits O.Stream.empties O.Stream.down) self.old
            worker proc.start.pid (brought_by proc calls (Asks request) Nothing) (streams_by proc None) }
        ensures { IsGivenBack (setting_of E.begin E.at self.new)
            (told O.Stream.taken O.Stream.put O.Stream.faults O.Stream.waits O.Stream.empties O.Stream.down)
            self.old self.new worker proc.start.pid (brought_by proc calls (Asks request) Nothing) }
    {
        sound();
        a_send_keeps::<E>();
        streams_keep_standing::<E, O::Stream>();
        streams_stand_apart::<E>();
        let pid = proc.start.pid;
        close_all(&mut self.closed, &mut proc.shed);
        let to = request.ask.args[0];
        let outcome = put_message(
            &mut self.mail[pid as usize],
            &mut proc.scratch,
            to,
            pid,
            self.sends,
        );
        self.sends = count_sent(outcome, self.sends);
        self.journal.add(Entry::Give {
            worker,
            pid,
            calls,
            fuel: proc.fuel,
            halt: Halt::Asks(request),
            side: post_side(outcome),
        });
        proc.engine.answer(&number_reply(post_code(outcome)));
        set_place(&mut self.places, pid, Place::Home(proc));
        self.queue.push_reserved(pid);
        self.row = 0;
        self.out -= 1;
    }

    /// Takes back a process that asks for a receive, and answers it or lets it wait. Where a message is delivered, the
    /// streams of the old scratch message are closed.
    fn give_receive(
        &mut self,
        worker: u8,
        mut proc: Proc<E, O>,
        calls: Calls,
        request: Request,
        now: u64,
    )
        requires out { ((world_of self.old).process proc.start.pid).stage ≡ Out worker }
        requires call { request.ask.call ≡ 9 }
        requires comes { ComesBack (meaning E.stands E.phase E.memory) (setting_of E.begin E.at self.old)
            (told O.Stream.taken O.Stream.put O.Stream.faults O.Stream.waits O.Stream.empties O.Stream.down) self.old
            worker proc.start.pid (brought_by proc calls (Asks request) (Clock now)) (streams_by proc None) }
        ensures { IsGivenBack (setting_of E.begin E.at self.new)
            (told O.Stream.taken O.Stream.put O.Stream.faults O.Stream.waits O.Stream.empties O.Stream.down)
            self.old self.new worker proc.start.pid (brought_by proc calls (Asks request) (Clock now)) }
    {
        sound();
        a_receive_keeps::<E>();
        a_wait_keeps::<E>();
        streams_keep_standing::<E, O::Stream>();
        streams_stand_apart::<E>();
        let pid = proc.start.pid;
        close_all(&mut self.closed, &mut proc.shed);
        let ask = request.ask;
        let ms = ask.args[2];
        let receipt = take_wanted(
            &mut self.mail[pid as usize],
            &mut proc.scratch,
            &mut proc.shed,
            request.first.as_slice(),
            ms,
        );
        close_all(&mut self.closed, &mut proc.shed);
        let time = self.time.max(now);
        self.time = time;
        self.journal.add(Entry::Give {
            worker,
            pid,
            calls,
            fuel: proc.fuel,
            halt: Halt::Asks(request),
            side: Side::Clock(now),
        });
        self.row = 0;
        self.out -= 1;
        if let Receipt::Waits = receipt {
            set_place(&mut self.places, pid, Place::Asleep(proc, ask));
            set_wait(&mut self.queue, pid, deadline_of(time, ms));
            return;
        }
        proc.engine.answer(&number_reply(receive_code(receipt)));
        set_place(&mut self.places, pid, Place::Home(proc));
        self.queue.push_reserved(pid);
    }

    /// Takes back a process that asks for a sleep, and answers it or lets it wait.
    fn give_sleep(
        &mut self,
        worker: u8,
        mut proc: Proc<E, O>,
        calls: Calls,
        request: Request,
        now: u64,
    )
        requires out { ((world_of self.old).process proc.start.pid).stage ≡ Out worker }
        requires call { request.ask.call ≡ 17 }
        requires comes { ComesBack (meaning E.stands E.phase E.memory) (setting_of E.begin E.at self.old)
            (told O.Stream.taken O.Stream.put O.Stream.faults O.Stream.waits O.Stream.empties O.Stream.down) self.old
            worker proc.start.pid (brought_by proc calls (Asks request) (Clock now)) (streams_by proc None) }
        ensures { IsGivenBack (setting_of E.begin E.at self.new)
            (told O.Stream.taken O.Stream.put O.Stream.faults O.Stream.waits O.Stream.empties O.Stream.down)
            self.old self.new worker proc.start.pid (brought_by proc calls (Asks request) (Clock now)) }
    {
        sound();
        a_sleep_keeps::<E>();
        a_sleep_waits_keeps::<E>();
        streams_keep_standing::<E, O::Stream>();
        streams_stand_apart::<E>();
        let pid = proc.start.pid;
        close_all(&mut self.closed, &mut proc.shed);
        let ask = request.ask;
        let time = self.time.max(now);
        self.time = time;
        self.journal.add(Entry::Give {
            worker,
            pid,
            calls,
            fuel: proc.fuel,
            halt: Halt::Asks(request),
            side: Side::Clock(now),
        });
        self.row = 0;
        self.out -= 1;
        if let Some(at) = deadline_of(time, ask.args[0]) {
            set_place(&mut self.places, pid, Place::Asleep(proc, ask));
            self.queue.set_deadline(pid, at);
            return;
        }
        proc.engine.answer(&empty_reply());
        set_place(&mut self.places, pid, Place::Home(proc));
        self.queue.push_reserved(pid);
    }

    /// Takes back a process that asks for a call of the world, or for one of the outside.
    pub(super) fn give_request(
        &mut self,
        worker: u8,
        proc: Proc<E, O>,
        calls: Calls,
        request: Request,
        side: Side,
        arrived: Option<O::Stream>,
    )
        requires out { ((world_of self.old).process proc.start.pid).stage ≡ Out worker }
        requires rows { AllHaveRows E.may_ask self.old.programs }
        requires comes { ComesBack (meaning E.stands E.phase E.memory) (setting_of E.begin E.at self.old)
            (told O.Stream.taken O.Stream.put O.Stream.faults O.Stream.waits O.Stream.empties O.Stream.down) self.old
            worker proc.start.pid (brought_by proc calls (Asks request) side) (streams_by proc arrived) }
        ensures { IsGivenBack (setting_of E.begin E.at self.new)
            (told O.Stream.taken O.Stream.put O.Stream.faults O.Stream.waits O.Stream.empties O.Stream.down)
            self.old self.new worker proc.start.pid (brought_by proc calls (Asks request) side) }
    {
        match side {
            Side::Nothing => {
                no_stream(arrived);
                self.give_send(worker, proc, calls, request)
            }
            Side::Clock(now) => {
                no_stream(arrived);
                if request.ask.call == SLEEP_MS {
                    return self.give_sleep(worker, proc, calls, request, now);
                }
                self.give_receive(worker, proc, calls, request, now)
            }
            other => self.give_outside(worker, proc, calls, Halt::Asks(request), other, arrived),
        }
    }
}
