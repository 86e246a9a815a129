ghost use Rattle.std.specs.Prelude.{◌≡◌, ◌++◌, ℕ, IfOk, OnOk};
ghost use Rattle.std.specs.Option.{option_map_or};
ghost use Rattle.host_port.specs.declared.request.Request.{Request};
ghost use Rattle.world_rules.specs.Calls.{call_of};
ghost use Rattle.world_rules.specs.Handles.{local_moves, local_closings, moves_of, closings_of};
ghost use Rattle.world_rules.specs.Judge.{charged};
ghost use Rattle.world_rules.specs.Local.{local, part_of, part_after};
ghost use Rattle.world_rules.specs.Rules.{gives_after, recorded, home};
ghost use Rattle.world_rules.specs.Views.{asked_in, wanted_in, want_of, is_starved};
ghost use Rattle.plain_part.specs.Shown.{shown_part};
ghost use Rattle.plain_world.specs.ShownProcess.{shown_process};
ghost use Rattle.plain_world.specs.Shown.{shown_world};
ghost use Rattle.plain_world.specs.Turned.{turned_by, turn_put, streamed_for, starved_so};

use crate::{Move, PlainMove, PlainProcess, PlainStage, PlainWhat, PlainWorld};
use host_port::{Call, Calls, Request, Start};
use memory_refusal::NoMemory;
use plain_part::{HostCall, PlainPart, argument, call_of, push_handles_in};
use world_rules::{Halt, Side};

/// Puts the move of a local call behind the others, where it makes one.
fn push_local_moves(
    moves: &mut Vec<Move>,
    pid: u64,
    part: &PlainPart,
    request: &Request,
) -> Result<(), NoMemory>
    ensures { OnOk result (moves.new.items ≡
        moves.old.items ++ local_moves (call_of request.now) pid (shown_part part.now) request.now) }
{
    let kind = match call_of(request) {
        Some(HostCall::CreateData) => PlainMove::ShutScratch { pid },
        Some(HostCall::PushStream) => PlainMove::Pushed {
            handle: argument(request, 0),
            pid,
            slot: part.slots().len() as u64,
        },
        Some(HostCall::TakeStream) => PlainMove::Taken {
            pid,
            slot: argument(request, 0),
        },
        Some(HostCall::DropStream) => PlainMove::Shut {
            handle: argument(request, 0),
        },
        _ => return Ok(()),
    };
    moves.push(Move::new(kind))?;
    Ok(())
}

/// Puts the streams that a local call closes behind the others.
fn push_local_closings(
    closed: &mut Vec<u64>,
    part: &PlainPart,
    request: &Request,
) -> Result<(), NoMemory>
    ensures { OnOk result (closed.new.items ≡
        closed.old.items ++ local_closings (call_of request.now) (shown_part part.now) request.now) }
{
    match call_of(request) {
        Some(HostCall::CreateData) => push_handles_in(closed, part.slots()),
        Some(HostCall::DropStream) => {
            closed.push(argument(request, 0))?;
            Ok(())
        }
        _ => Ok(()),
    }
}

/// What one local call does: its move, the streams that it closes, and the part after it.
fn run_call(
    pid: u64,
    start: &Start,
    part: &mut PlainPart,
    request: &Request,
    moves: &mut Vec<Move>,
    closed: &mut Vec<u64>,
) -> Result<(), NoMemory>
    ensures part { OnOk result (shown_part part.new ≡
        part_of (shown_part part.old) (local start.now (shown_part part.old) request.now)) }
    ensures moves { OnOk result (moves.new.items ≡
        moves.old.items ++ local_moves (call_of request.now) pid (shown_part part.old) request.now) }
    ensures closed { OnOk result (closed.new.items ≡
        closed.old.items ++ local_closings (call_of request.now) (shown_part part.old) request.now) }
{
    push_local_moves(moves, pid, part, request)?;
    push_local_closings(closed, part, request)?;
    part.run_local(start, request)
}

/// What a turn's local calls do, one after another: their moves, the streams that they close, and the part after them.
fn run_calls(
    pid: u64,
    start: &Start,
    part: &mut PlainPart,
    calls: &[Call],
    moves: &mut Vec<Move>,
    closed: &mut Vec<u64>,
) -> Result<(), NoMemory>
    ensures part { OnOk result (shown_part part.new ≡ part_after start.now (shown_part part.old) calls.now) }
    ensures moves { OnOk result (moves.new.items ≡
        moves.old.items ++ moves_of pid start.now (shown_part part.old) calls.now) }
    ensures closed { OnOk result (closed.new.items ≡
        closed.old.items ++ closings_of start.now (shown_part part.old) calls.now) }
{
    for call in calls {
        run_call(pid, start, part, &call.request, moves, closed)?;
    }
    Ok(())
}

/// The cost of the request that a turn ends by asking for, if it does, is added to the traffic.
fn charge_asked(part: &mut PlainPart, halt: &Halt) -> Result<(), NoMemory>
    ensures { OnOk result (shown_part part.new ≡
        option_map_or (λ (request : Request). charged request (shown_part part.old))
        (asked_in halt.now) (shown_part part.old)) }
{
    match halt {
        Halt::Asks(request) => part.charge(request),
        Halt::Slice => Ok(()),
        Halt::Done => Ok(()),
        Halt::Trap(_) => Ok(()),
        Halt::Spent(_) => Ok(()),
        Halt::Host(_, _) => Ok(()),
        Halt::NoMemory => Ok(()),
        Halt::Again => Ok(()),
    }
}

/// These calls join the others.
fn append_calls(calls: &mut Calls, more: &[Call]) -> Result<(), NoMemory>
    ensures { OnOk result (calls.new ≡ calls.old ++ more.now) }
{
    for call in more {
        calls.push(call.try_clone()?)?;
    }
    Ok(())
}

/// How many turns the process has given back after this one. NoMemory comes where the number would pass 2^64.
fn gives_after(process: &PlainProcess) -> Result<u64, NoMemory>
    ensures { IfOk result (λ gives. gives ≡ gives_after (shown_process process.now)) }
{
    if process.owed.is_some() {
        return Ok(process.gives);
    }
    process.gives.checked_add(1).ok_or(NoMemory)
}

/// What is always recorded of a turn: its local calls with what they do, the cost of what it asks for, its fuel, and
/// that it was given back.
fn turn(
    process: &mut PlainProcess,
    pid: u64,
    calls: &[Call],
    fuel: u64,
    halt: &Halt,
    moves: &mut Vec<Move>,
    closed: &mut Vec<u64>,
) -> Result<(), NoMemory>
    ensures process { OnOk result (shown_process process.new ≡
        turned_by (shown_process process.old) calls.now fuel halt.now) }
    ensures moves { OnOk result (moves.new.items ≡ moves.old.items ++
        moves_of pid (shown_process process.old).start (shown_process process.old).part calls.now) }
    ensures closed { OnOk result (closed.new.items ≡ closed.old.items ++
        closings_of (shown_process process.old).start (shown_process process.old).part calls.now) }
{
    run_calls(pid, &process.start, &mut process.part, calls, moves, closed)?;
    charge_asked(&mut process.part, halt)?;
    append_calls(&mut process.calls, calls)?;
    process.fuel = fuel;
    process.gives = gives_after(process)?;
    Ok(())
}

impl PlainWorld {
    /// What is always recorded of a turn, in its place.
    fn put_turned(
        &mut self,
        pid: u64,
        calls: &[Call],
        fuel: u64,
        halt: &Halt,
    ) -> Result<(), NoMemory>
        ensures { OnOk result (shown_world self.new ≡ turn_put (shown_world self.old) pid calls.now fuel halt.now) }
    {
        let mut process = self.take_process(pid);
        turn(
            &mut process,
            pid,
            calls,
            fuel,
            halt,
            &mut self.moves,
            &mut self.closed,
        )?;
        self.put_process(pid, process)
    }

    /// The request that the process owes, once more.
    pub(crate) fn owed(&self, pid: u64) -> Result<Option<Request>, NoMemory>
        ensures { IfOk result (λ owed. owed ≡ ((shown_world self.now).process pid).owed) }
    {
        let Some(process) = self.at(pid) else {
            return Ok(None);
        };
        match &process.owed {
            Some(request) => Ok(Some(request.try_clone()?)),
            None => Ok(None),
        }
    }

    /// What was streamed by an answer is counted; the request is the one that the turn asks for, or the one that is
    /// owed.
    fn stream_wanted(&mut self, pid: u64, halt: &Halt, side: &Side) -> Result<(), NoMemory>
        ensures { OnOk result (shown_world self.new ≡ streamed_for
            (wanted_in (want_of halt.now) ((shown_world self.old).process pid).owed) side.now (shown_world self.old)) }
    {
        match halt {
            Halt::Asks(request) => self.stream(request, side),
            Halt::Again => self.stream_owed(pid, side),
            Halt::Slice => Ok(()),
            Halt::Done => Ok(()),
            Halt::Trap(_) => Ok(()),
            Halt::Spent(_) => Ok(()),
            Halt::Host(_, _) => Ok(()),
            Halt::NoMemory => Ok(()),
        }
    }

    /// What was streamed by an answer to the request that is owed is counted.
    fn stream_owed(&mut self, pid: u64, side: &Side) -> Result<(), NoMemory>
        ensures { OnOk result (shown_world self.new ≡ streamed_for
            ((shown_world self.old).process pid).owed side.now (shown_world self.old)) }
    {
        match self.owed(pid)? {
            Some(request) => self.stream(&request, side),
            None => Ok(()),
        }
    }

    /// Want of memory arrives at the process, with the number of the turn's calls.
    fn starve(&mut self, pid: u64, calls: &[Call], halt: &Halt) -> Result<(), NoMemory>
        ensures { OnOk result (shown_world self.new ≡
            starved_so (is_starved halt.now) (shown_world self.old) pid calls.now) }
    {
        match halt {
            Halt::NoMemory => self.add_arrival(pid, PlainWhat::Starved(calls.len() as u64)),
            Halt::Asks(_) => Ok(()),
            Halt::Again => Ok(()),
            Halt::Slice => Ok(()),
            Halt::Done => Ok(()),
            Halt::Trap(_) => Ok(()),
            Halt::Spent(_) => Ok(()),
            Halt::Host(_, _) => Ok(()),
        }
    }

    /// What is recorded of each Give: the time, what was streamed, the local calls with their moves and closings, and
    /// the fuel.
    pub(crate) fn record(
        &mut self,
        pid: u64,
        calls: &[Call],
        fuel: u64,
        halt: &Halt,
        side: &Side,
    ) -> Result<(), NoMemory>
        ensures { OnOk result ((worker : ℕ) → shown_world self.new ≡ recorded (shown_world self.old)
            (record { worker = worker; pid = pid; calls = calls.now; fuel = fuel; halt = halt.now; side = side.now })) }
    {
        self.set_clock(side);
        self.stream_wanted(pid, halt, side)?;
        self.starve(pid, calls, halt)?;
        self.put_turned(pid, calls, fuel, halt)
    }

    /// While its Give is performed the giver is live but no longer out.
    pub(crate) fn come_home(&mut self, pid: u64) -> Result<(), NoMemory>
        ensures { OnOk result (shown_world self.new ≡ home (shown_world self.old) pid) }
    {
        let mut process = self.take_process(pid);
        process.stage = PlainStage::Ready;
        self.put_process(pid, process)
    }
}
