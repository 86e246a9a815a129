ghost use Rattle.std.specs.Prelude.{◌≡◌, ◌≢◌, ℕ, ◌+◌, ◌-◌, ◌<◌, ◌≤◌, List, [], ◌∷◌, ◌++◌, length, true, All, IfSome, MatchOption, ◌^◌};
ghost use Rattle.host_port.specs.declared.stop.Stop.TheVariants.{Asks as AsksFor};
ghost use Rattle.host_port.specs.declared.ask.Ask.{Ask as TheAsk};
ghost use Rattle.host_port.specs.declared.call.Call.{Call as TheCall};
ghost use Rattle.host_port.specs.Areas.{request_of};
ghost use Rattle.host_port.specs.HostTable.{is_local};
ghost use Rattle.host_port.specs.Standing.{Running, Owing};
ghost use Rattle.resource_table.specs.Handles.{numbers_of};
ghost use Rattle.resource_table.specs.Steps.{told};
ghost use Rattle.turn_rules.specs.Turn.{IsUsedUp};
ghost use Rattle.world_rules.specs.Judge.{Fit, judge};
ghost use Rattle.world_rules.specs.World.{Process};
ghost use Rattle.node_state.specs.Seats.{meaning, phase_by, IsOnce, IsOwed};
ghost use Rattle.node_state.specs.Rows.{HasRows};
ghost use Rattle.host_calls.specs.Shown.{shown_part, seat_of, hands_of, brought_in, streams_in};
ghost use Rattle.host_calls.specs.Steps.{AreInOrder};
ghost use Rattle.host_calls.specs.Outsides.{telling, OutsideGives, IsTimeOf};
ghost use Rattle.host_calls.specs.Brings.{
  IsUnderWay,
  IsAt,
  GoesTo,
  HasEnded,
  GoesOrEnds,
  MayBeGiven,
  StreamsMayCome,
  HandsBack,
  halt_after,
  wanted_after,
};
ghost use Rattle.host_calls.specs.Turning.{KeepsStreams, AsksWell};

use crate::asking::{ask_outside, beside};
use crate::judging::{Judgement, judge};
use crate::local_calls::{charge, perform};
use crate::{OutStep, Proc, Turn};
use host_port::{Ask, Call, Calls, Engine, Reply, Request, Spent, Stop, is_local, resolve};
use outside::Outside;
use std::alloc::Global;
use world_rules::{Halt, Side};

/// The most fuel that a turn burns.
const TURN_FUEL: u64 = 10_000;

/// The halt of a step that stopped at no ask.
fn halt_of(stop: Stop) -> Halt
    requires { (ask : TheAsk) → stop ≢ AsksFor ask }
    ensures { result ≡ halt_after stop }
{
    match stop {
        Stop::Slice => Halt::Slice,
        Stop::Asks(_) => unreachable!(),
        Stop::Done => Halt::Done,
        Stop::Trap(trap) => Halt::Trap(trap),
        Stop::Spent(spent) => Halt::Spent(spent),
    }
}

/// The fuel after so much more, which is at most `_most` and so is no larger than a `u64`.
fn fuel_after(fuel: u64, executed: u64, _most: u64) -> u64
    requires { fuel + executed ≤ _most }
    ensures { result ≡ fuel + executed }
{
    fuel + executed
}

/// The reply of the last of some calls.
fn last_reply(calls: &[Call]) -> &Reply
    requires { 1 ≤ length calls.now }
    ensures { (before : List TheCall) (call : TheCall) → calls.now ≡ before ++ call ∷ [] → result.now ≡ call.reply }
{
    match calls.last() {
        Some(call) => &call.reply,
        None => unreachable!(),
    }
}

/// How many bytes these are; each is one.
fn count_of(bytes: &[u8]) -> usize
    ensures { All (λ b. b < 2 ^ 8) bytes.now }
{
    bytes.len()
}

/// How many bytes a reply's text has; each is one.
fn written(reply: &Reply) -> usize
    ensures { IfSome reply.now.text (λ text. All (λ b. b < 2 ^ 8) text.bytes) }
{
    match &reply.text {
        Some(text) => count_of(text.bytes.as_slice()),
        None => 0,
    }
}

/// Performs a local call that is judged fit, records it and gives the engine its reply; or says the halt.
fn answer<E: Engine, O: Outside>(
    alloc: Global,
    proc: &mut Proc<E, O>,
    calls: &mut Vec<Call>,
    request: Request,
) -> Option<Halt>
    requires way { IsUnderWay (meaning E.stands E.phase E.memory) (Owing request.ask) (seat_of proc.old) }
    requires bytes { request ≡ request_of (E.memory proc.old.engine) request.ask }
    requires fit { judge proc.old.start (shown_part proc.old) request ≡ Fit }
    requires local { is_local request.ask.call ≡ true }
    requires order { AreInOrder proc.old }
    ensures goes { GoesOrEnds (meaning E.stands E.phase E.memory) E.at E.may_ask
        (seat_of proc.old) (numbers_of proc.old.shed) calls.old.items
        (seat_of proc.new) (numbers_of proc.new.shed) calls.new.items result }
    ensures streams { KeepsStreams (told O.Stream.taken O.Stream.put O.Stream.faults O.Stream.waits O.Stream.empties
        O.Stream.down) proc.old proc.new }
    ensures asks { IfSome result (AsksWell (E.memory proc.new.engine) (shown_part proc.new) (length calls.new.items)) }
{
    // The memory has so few pages that no text in it is too long for the row of its call.
    let _pages = proc.engine.pages();
    // Room for the call is made before it is performed: without room for it, the turn is cut short here.
    let Ok(()) = calls.reserve(1) else {
        return Some(Halt::NoMemory);
    };
    let Ok(reply) = perform(alloc, proc, &request) else {
        return Some(Halt::NoMemory);
    };
    let _written = written(&reply);
    calls.push_reserved(Call { request, reply });
    proc.engine.answer(last_reply(calls.as_slice()));
    None
}

/// Meets an ask: answers it where it is local and is judged fit, or says the halt.
fn meet<E: Engine, O: Outside>(
    alloc: Global,
    proc: &mut Proc<E, O>,
    calls: &mut Vec<Call>,
    ask: Ask,
) -> Option<Halt>
    requires way { IsUnderWay (meaning E.stands E.phase E.memory) (Owing ask) (seat_of proc.old) }
    requires few { length calls.old.items < 64 }
    requires order { AreInOrder proc.old }
    ensures goes { GoesOrEnds (meaning E.stands E.phase E.memory) E.at E.may_ask
        (seat_of proc.old) (numbers_of proc.old.shed) calls.old.items
        (seat_of proc.new) (numbers_of proc.new.shed) calls.new.items result }
    ensures streams { KeepsStreams (told O.Stream.taken O.Stream.put O.Stream.faults O.Stream.waits O.Stream.empties
        O.Stream.down) proc.old proc.new }
    ensures asks { IfSome result (AsksWell (E.memory proc.new.engine) (shown_part proc.new) (length calls.new.items)) }
{
    let Ok(request) = resolve(alloc, &proc.engine, ask) else {
        return Some(Halt::NoMemory);
    };
    match judge(proc, &request) {
        Judgement::Faulty(fault) => Some(Halt::Host(fault, request)),
        Judgement::Overdrawn => Some(Halt::Spent(Spent::Traffic)),
        Judgement::Fit => {
            if is_local(ask.call) {
                answer(alloc, proc, calls, request)
            } else {
                charge(proc, &request);
                Some(Halt::Asks(request))
            }
        }
    }
}

/// Burns at most `budget` of fuel, and meets the ask that comes, if one does.
fn go_on<E: Engine, O: Outside>(
    alloc: Global,
    proc: &mut Proc<E, O>,
    calls: &mut Vec<Call>,
    budget: u64,
) -> Option<Halt>
    requires some { 1 ≤ budget }
    requires few { length calls.old.items < 64 }
    requires way { IsUnderWay (meaning E.stands E.phase E.memory) Running (seat_of proc.old) }
    requires order { AreInOrder proc.old }
    ensures same { proc.new.start ≡ proc.old.start }
    ensures owed { proc.new.owed ≡ proc.old.owed }
    ensures from { proc.old.fuel ≤ proc.new.fuel }
    ensures within { proc.new.fuel ≤ proc.old.fuel + budget }
    ensures way { result ≡ None → IsUnderWay (meaning E.stands E.phase E.memory) Running (seat_of proc.new) }
    ensures count { result ≡ None → length calls.new.items ≡ length calls.old.items + 1 }
    ensures goes { (program : E.Program) (p : Process) → HasRows E.may_ask program →
        proc.old.fuel + budget ≡ p.fuel + 10000 →
        GoesTo (meaning E.stands E.phase E.memory) E.at program p (seat_of proc.old) (numbers_of proc.old.shed)
        calls.old.items →
        MatchOption result
        (GoesTo (meaning E.stands E.phase E.memory) E.at program p (seat_of proc.new) (numbers_of proc.new.shed)
        calls.new.items)
        (λ halt. HasEnded (meaning E.stands E.phase E.memory) E.at program p (seat_of proc.new)
        (numbers_of proc.new.shed) calls.new.items halt) }
    ensures streams { KeepsStreams (told O.Stream.taken O.Stream.put O.Stream.faults O.Stream.waits O.Stream.empties
        O.Stream.down) proc.old proc.new }
    ensures asks { IfSome result (AsksWell (E.memory proc.new.engine) (shown_part proc.new) (length calls.new.items)) }
{
    let (stop, executed) = proc.engine.step(budget);
    proc.fuel = fuel_after(proc.fuel, executed, proc.start.limits.fuel());
    match stop {
        Stop::Asks(ask) => meet(alloc, proc, calls, ask),
        other => Some(halt_of(other)),
    }
}

/// The end of a turn at one of its bounds: the end of the run, where it stands there, or a slice.
fn end_at_bound<E: Engine, O: Outside>(proc: &mut Proc<E, O>) -> Halt
    requires way { IsUnderWay (meaning E.stands E.phase E.memory) Running (seat_of proc.old) }
    requires order { AreInOrder proc.old }
    ensures same { proc.new.start ≡ proc.old.start }
    ensures owed { proc.new.owed ≡ proc.old.owed }
    ensures ends { (program : E.Program) (p : Process) (calls : List TheCall) → length calls ≤ 64 →
        GoesTo (meaning E.stands E.phase E.memory) E.at program p (seat_of proc.old) (numbers_of proc.old.shed) calls →
        IsUsedUp (proc.old.fuel - p.fuel) (length calls) →
        HasEnded (meaning E.stands E.phase E.memory) E.at program p (seat_of proc.new) (numbers_of proc.new.shed) calls
        result }
    ensures streams { KeepsStreams (told O.Stream.taken O.Stream.put O.Stream.faults O.Stream.waits O.Stream.empties
        O.Stream.down) proc.old proc.new }
    ensures asks { (answers : ℕ) → AsksWell (E.memory proc.new.engine) (shown_part proc.new) answers result }
{
    if proc.engine.done() {
        let (stop, _) = proc.engine.step(1);
        return halt_of(stop);
    }
    Halt::Slice
}

/// Runs a turn from its begin, with no calls yet.
fn run<E: Engine, O: Outside>(alloc: Global, proc: &mut Proc<E, O>, calls: &mut Vec<Call>) -> Halt
    requires way { IsUnderWay (meaning E.stands E.phase E.memory) Running (seat_of proc.old) }
    requires blank { calls.old.items ≡ [] }
    requires shed { proc.old.shed ≡ [] }
    requires order { AreInOrder proc.old }
    ensures same { proc.new.start ≡ proc.old.start }
    ensures owed { proc.new.owed ≡ proc.old.owed }
    ensures ends { (program : E.Program) (p : Process) → HasRows E.may_ask program →
        IsAt (meaning E.stands E.phase E.memory) program p (seat_of proc.old) →
        HasEnded (meaning E.stands E.phase E.memory) E.at program p (seat_of proc.new) (numbers_of proc.new.shed)
        calls.new.items result }
    ensures streams { KeepsStreams (told O.Stream.taken O.Stream.put O.Stream.faults O.Stream.waits O.Stream.empties
        O.Stream.down) proc.old proc.new }
    ensures asks { AsksWell (E.memory proc.new.engine) (shown_part proc.new) (length calls.new.items) result }
{
    let begun = proc.fuel;
    for answered in 0..64u64 {
        let used = proc.fuel - begun;
        if used == TURN_FUEL {
            break;
        }
        if let Some(halt) = go_on(alloc, proc, calls, TURN_FUEL - used) {
            return halt;
        }
    }
    end_at_bound(proc)
}

/// A turn that only tries a request again: no calls, and no fuel.
fn try_again<E: Engine, O: Outside>(
    alloc: Global,
    mut proc: Proc<E, O>,
    outside: &mut O,
    ask: Ask,
) -> Turn<E, O>
    requires way { IsUnderWay (meaning E.stands E.phase E.memory) (Owing ask) (seat_of proc) }
    requires owed { proc.owed ≡ Some ask }
    requires tries { IsOwed (E.memory proc.engine) (shown_part proc) ask }
    requires order { AreInOrder proc }
    requires shed { proc.shed ≡ [] }
    ensures same { result.proc.start ≡ proc.start }
    ensures time { IsTimeOf (O.clock outside.old) result.side }
    ensures outside { OutsideGives
        (telling (O.faults outside.old) (O.waits outside.old) (O.rests outside.old) (O.clock outside.old))
        (telling (O.faults outside.new) (O.waits outside.new) (O.rests outside.new) (O.clock outside.new))
        (wanted_after (meaning E.stands E.phase E.memory) (seat_of proc) result.halt) result.side }
    ensures entered { O.entered outside.new ≡ O.entered outside.old }
    ensures given { MayBeGiven (meaning E.stands E.phase E.memory) E.begin E.at E.may_ask (seat_of proc)
        (brought_in result) }
    ensures streams { StreamsMayCome
        (told O.Stream.taken O.Stream.put O.Stream.faults O.Stream.waits O.Stream.empties O.Stream.down)
        (wanted_after (meaning E.stands E.phase E.memory) (seat_of proc) result.halt) result.side (hands_of proc)
        (streams_in result) }
    ensures handed { HandsBack
        (told O.Stream.taken O.Stream.put O.Stream.faults O.Stream.waits O.Stream.empties O.Stream.down)
        (wanted_after (meaning E.stands E.phase E.memory) (seat_of proc) result.halt) (hands_of proc)
        (streams_in result) }
{
    let calls = Calls::new(alloc);
    match ask_outside(alloc, &mut proc, outside, ask) {
        OutStep::Side(side) => Turn {
            proc,
            calls,
            halt: Halt::Again,
            side,
            arrived: None,
        },
        OutStep::Opened(stream) => Turn {
            proc,
            calls,
            halt: Halt::Again,
            side: Side::Opened,
            arrived: Some(stream),
        },
        OutStep::NoMemory => Turn {
            proc,
            calls,
            halt: Halt::NoMemory,
            side: Side::Nothing,
            arrived: None,
        },
    }
}

/// A turn of its own.
fn own_turn<E: Engine, O: Outside>(
    alloc: Global,
    mut proc: Proc<E, O>,
    outside: &mut O,
) -> Turn<E, O>
    requires way { IsUnderWay (meaning E.stands E.phase E.memory) Running (seat_of proc) }
    requires unowed { proc.owed ≡ None }
    requires order { AreInOrder proc }
    requires shed { proc.shed ≡ [] }
    ensures same { result.proc.start ≡ proc.start }
    ensures time { IsTimeOf (O.clock outside.old) result.side }
    ensures outside { OutsideGives
        (telling (O.faults outside.old) (O.waits outside.old) (O.rests outside.old) (O.clock outside.old))
        (telling (O.faults outside.new) (O.waits outside.new) (O.rests outside.new) (O.clock outside.new))
        (wanted_after (meaning E.stands E.phase E.memory) (seat_of proc) result.halt) result.side }
    ensures entered { O.entered outside.new ≡ O.entered outside.old }
    ensures given { MayBeGiven (meaning E.stands E.phase E.memory) E.begin E.at E.may_ask (seat_of proc)
        (brought_in result) }
    ensures streams { StreamsMayCome
        (told O.Stream.taken O.Stream.put O.Stream.faults O.Stream.waits O.Stream.empties O.Stream.down)
        (wanted_after (meaning E.stands E.phase E.memory) (seat_of proc) result.halt) result.side (hands_of proc)
        (streams_in result) }
    ensures handed { HandsBack
        (told O.Stream.taken O.Stream.put O.Stream.faults O.Stream.waits O.Stream.empties O.Stream.down)
        (wanted_after (meaning E.stands E.phase E.memory) (seat_of proc) result.halt) (hands_of proc)
        (streams_in result) }
{
    let mut items = Vec::new(alloc);
    let halt = run(alloc, &mut proc, &mut items);
    let calls = Calls::from_vec(items);
    match halt {
        Halt::Asks(request) => match beside(alloc, &mut proc, outside, request.ask) {
            OutStep::Side(side) => Turn {
                proc,
                calls,
                halt: Halt::Asks(request),
                side,
                arrived: None,
            },
            OutStep::Opened(stream) => Turn {
                proc,
                calls,
                halt: Halt::Asks(request),
                side: Side::Opened,
                arrived: Some(stream),
            },
            OutStep::NoMemory => Turn {
                proc,
                calls,
                halt: Halt::NoMemory,
                side: Side::Nothing,
                arrived: None,
            },
        },
        other => Turn {
            proc,
            calls,
            halt: other,
            side: Side::Nothing,
            arrived: None,
        },
    }
}

/// How many streams a process has in its table; in hand it has at most 320.
fn count_few<E: Engine, O: Outside>(proc: &Proc<E, O>) -> u32
    ensures { length (hands_of proc.now) ≤ 320 }
{
    let _size = proc.scratch.size();
    proc.table.count()
}

/// Runs the turn of a process: at most 10,000 of fuel and 64 local calls; or, where a call of the outside isn't
/// answered yet, only tries that again.
///
/// It is never refused. Where the machine refuses memory, the turn is cut short at the ask that needed it, and its halt
/// says so. What it brings back a node may be given. With a receive or a sleep comes the time that the outside tells;
/// a call of the outside is made, and its answer comes, or none yet, or a stream.
pub fn turn<E: Engine, O: Outside>(alloc: Global, proc: Proc<E, O>, outside: &mut O) -> Turn<E, O>
    requires way { IsUnderWay (meaning E.stands E.phase E.memory) (phase_by proc.owed) (seat_of proc) }
    requires tries { IfSome proc.owed (IsOwed (E.memory proc.engine) (shown_part proc)) }
    requires once { IsOnce (shown_part proc) }
    requires shed { proc.shed ≡ [] }
    ensures same { result.proc.start ≡ proc.start }
    ensures time { IsTimeOf (O.clock outside.old) result.side }
    ensures outside { OutsideGives
        (telling (O.faults outside.old) (O.waits outside.old) (O.rests outside.old) (O.clock outside.old))
        (telling (O.faults outside.new) (O.waits outside.new) (O.rests outside.new) (O.clock outside.new))
        (wanted_after (meaning E.stands E.phase E.memory) (seat_of proc) result.halt) result.side }
    ensures entered { O.entered outside.new ≡ O.entered outside.old }
    ensures given { MayBeGiven (meaning E.stands E.phase E.memory) E.begin E.at E.may_ask (seat_of proc)
        (brought_in result) }
    ensures streams { StreamsMayCome
        (told O.Stream.taken O.Stream.put O.Stream.faults O.Stream.waits O.Stream.empties O.Stream.down)
        (wanted_after (meaning E.stands E.phase E.memory) (seat_of proc) result.halt) result.side (hands_of proc)
        (streams_in result) }
    ensures handed { HandsBack
        (told O.Stream.taken O.Stream.put O.Stream.faults O.Stream.waits O.Stream.empties O.Stream.down)
        (wanted_after (meaning E.stands E.phase E.memory) (seat_of proc) result.halt) (hands_of proc)
        (streams_in result) }
{
    let _count = count_few(&proc);
    match proc.owed {
        Some(ask) => try_again(alloc, proc, outside, ask),
        None => own_turn(alloc, proc, outside),
    }
}
