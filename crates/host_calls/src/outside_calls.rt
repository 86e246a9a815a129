ghost use Rattle.std.specs.Prelude.{◌≡◌, ◌≤◌, ◌<◌, ◌^◌, None, Some, true, All, length, nat_le, option_map, IfSome};
ghost use Rattle.host_port.specs.Areas.{request_of};
ghost use Rattle.host_port.specs.HostTable.{known_row_of};
ghost use Rattle.plain_part.specs.Shown.{shown_call};
ghost use Rattle.resource_table.specs.Steps.{told};
ghost use Rattle.resource_table.specs.Handles.{numbers_of};
ghost use Rattle.world_rules.specs.declared.entry.Side.TheVariants as SideIs;
ghost use Rattle.world_rules.specs.Answers.{number_reply, written_reply};
ghost use Rattle.world_rules.specs.Kinds.{kind_of};
ghost use Rattle.node_state.specs.Fits.{is_outside};
ghost use Rattle.node_state.specs.Seats.{IsAsked};
ghost use Rattle.host_calls.specs.Shown.{shown_part};
ghost use Rattle.host_calls.specs.Steps.{AreInOrder};
ghost use Rattle.host_calls.specs.Outsides.{side_in, IsOutStep, OutsideGives, TellsPort, telling, arrived_in};
ghost use Rattle.host_calls.specs.OutsideSteps.{ComesTo, moved_reply, count_reply, outside_number};
ghost use Rattle.host_calls.specs.declared.outside_calls.OutStep.TheVariants as out;

use crate::Proc;
use crate::listeners::accept_on;
use host_port::{Ask, Bytes, Engine, Reply, Text, Word};
use outside::{AcceptStep, IoStep, MakeStep, Outside, Stream};
use plain_part::{HostCall, call_numbered};
use resource_table::Resources;
use std::alloc::Global;
use world_rules::Side;

/// How many streams a table holds.
const PLACES: u32 = 256;

/// How many bytes one read or one write moves at most.
const MOST: u64 = 65_536;

/// What a call of the outside came to.
pub enum OutStep<S> {
    /// This may stand beside the request.
    Side(Side),
    /// A stream was opened.
    Opened(S),
    /// The machine refused the memory for a read.
    NoMemory,
}

/// Makes the call of the outside that this ask asks for: at most one call on the outside, or on the stream that it
/// names.
///
/// The request is judged fit. `NoMemory` comes for want of memory alone, at a read, and leaves the process as it was.
pub fn outside_step<E: Engine, O: Outside>(
    alloc: Global,
    proc: &mut Proc<E, O>,
    outside: &mut O,
    ask: Ask,
) -> OutStep<O::Stream>
    requires outside { is_outside (kind_of (request_of (E.memory proc.old.engine) ask)) ≡ true }
    requires asked { IsAsked (E.memory proc.old.engine) (shown_part proc.old) ask }
    requires order { AreInOrder proc.old }
    ensures engine { proc.new.engine ≡ proc.old.engine }
    ensures start { proc.new.start ≡ proc.old.start }
    ensures fuel { proc.new.fuel ≡ proc.old.fuel }
    ensures shed { proc.new.shed ≡ proc.old.shed }
    ensures order { AreInOrder proc.new }
    ensures step { IfSome (side_in result) (λ side.
        IsOutStep (told O.Stream.taken O.Stream.put O.Stream.faults O.Stream.waits O.Stream.empties O.Stream.down)
        (request_of (E.memory proc.old.engine) ask) proc.old proc.new side (arrived_in result)) }
    ensures memory { side_in result ≡ None → proc.new ≡ proc.old }
    ensures outside { IfSome (side_in result) (λ side. OutsideGives
        (telling (O.faults outside.old) (O.waits outside.old) (O.rests outside.old) (O.clock outside.old))
        (telling (O.faults outside.new) (O.waits outside.new) (O.rests outside.new) (O.clock outside.new))
        (Some (request_of (E.memory proc.old.engine) ask)) side) }
    ensures untouched { side_in result ≡ None → outside.new ≡ outside.old }
    ensures entered { O.entered outside.new ≡ O.entered outside.old }
    ensures port { TellsPort O.Listener.number (request_of (E.memory proc.old.engine) ask) proc.old result }
{
    match outside_call(ask.call) {
        HostCall::Bind => bind_step(proc, outside, ask),
        HostCall::LocalPort => local_port_step(proc, ask),
        HostCall::Accept => accept_step(proc, outside, ask),
        HostCall::Connect => connect_step(proc, outside, ask),
        HostCall::ReadStream => read_step(alloc, proc, ask),
        HostCall::WriteStream => write_step(proc, ask),
        _ => unreachable!(),
    }
}

/// The call of the outside of this number.
fn outside_call(number: u8) -> HostCall
    requires { is_outside (option_map (λ row. row.kind) (known_row_of number)) ≡ true }
    ensures { outside_number (shown_call result) ≡ Some number }
{
    let Some(call) = call_numbered(number) else {
        unreachable!()
    };
    call
}

// HELPERS

/// The answer that is a number.
fn answered<S>(n: u64) -> OutStep<S>
    ensures { result ≡ out.Side (SideIs.Answer (number_reply n)) }
{
    OutStep::Side(Side::Answer(Reply {
        result: Some(n),
        word: None,
        text: None,
    }))
}

/// An address that lies in the engine's memory, or at its end.
fn address<E: Engine>(engine: &E, place: u64) -> u32
    requires { place ≤ length (E.memory engine.now) }
    ensures { result ≡ place }
{
    // A memory has few pages.
    let _pages = engine.pages();
    place as u32
}

/// The low 32 bits of an argument.
fn low_word(argument: u64) -> u32 {
    (argument & 0xffff_ffff) as u32
}

/// The low 16 bits of an argument.
fn low_half(argument: u64) -> u16 {
    (argument & 0xffff) as u16
}

/// A port as a number.
fn wide(port: u16) -> u64
    ensures same { result ≡ port }
    ensures small { result < 65536 }
{
    u64::from(port)
}

/// There is no place for one stream more.
fn full<S: Stream>(table: &Resources<S>) -> bool
    ensures { result ≡ nat_le 256 (length (numbers_of table.now)) }
{
    PLACES <= table.count()
}

/// How many bytes; each is one.
fn count_of(bytes: &[u8]) -> usize
    ensures count { result ≡ length bytes.now }
    ensures octets { All (λ b. b < 2 ^ 8) bytes.now }
{
    bytes.len()
}

/// The answer 0 with these bytes, and their count.
fn moved(addr: u32, bytes: Bytes, count_addr: u32) -> Reply
    requires { length bytes ≤ 65536 }
    ensures reply { result ≡ moved_reply addr bytes count_addr }
    ensures octets { All (λ b. b < 2 ^ 8) bytes }
{
    let count = count_of(bytes.as_slice()) as u64;
    Reply {
        result: Some(0),
        word: Some(Word {
            addr: count_addr,
            width: 4,
            value: count,
        }),
        text: Some(Text { addr, bytes }),
    }
}

/// The answer 0 with the count of the bytes that were written.
fn counted(count: u64, count_addr: u32) -> Reply
    ensures { result ≡ count_reply count count_addr }
{
    Reply {
        result: Some(0),
        word: Some(Word {
            addr: count_addr,
            width: 4,
            value: count,
        }),
        text: None,
    }
}

/// The answer 0 with a number of eight bytes.
fn written(addr: u32, value: u64) -> Reply
    ensures { result ≡ written_reply 0 addr value }
{
    Reply {
        result: Some(0),
        word: Some(Word {
            addr,
            width: 8,
            value,
        }),
        text: None,
    }
}

// LISTENERS

/// Binds a listener at an address and a port: 2 where 16 are there, 1 where it failed, 12 for want of memory.
fn bind_step<E: Engine, O: Outside>(
    proc: &mut Proc<E, O>,
    outside: &mut O,
    ask: Ask,
) -> OutStep<O::Stream>
    requires number { ask.call ≡ 27 }
    requires asked { IsAsked (E.memory proc.old.engine) (shown_part proc.old) ask }
    requires order { AreInOrder proc.old }
    ensures step { ComesTo
        (told O.Stream.taken O.Stream.put O.Stream.faults O.Stream.waits O.Stream.empties O.Stream.down)
        (request_of (E.memory proc.old.engine) ask) proc.old proc.new result }
    ensures outside { IfSome (side_in result) (λ side. OutsideGives
        (telling (O.faults outside.old) (O.waits outside.old) (O.rests outside.old) (O.clock outside.old))
        (telling (O.faults outside.new) (O.waits outside.new) (O.rests outside.new) (O.clock outside.new))
        (Some (request_of (E.memory proc.old.engine) ask)) side) }
    ensures untouched { side_in result ≡ None → outside.new ≡ outside.old }
    ensures entered { O.entered outside.new ≡ O.entered outside.old }
{
    let id = address(&proc.engine, ask.args[2]);
    if proc.listeners.full() {
        return answered(2);
    }
    let number = proc.listeners.next();
    // No number is left for it.
    if number == u64::MAX {
        return answered(12);
    }
    match outside.bind(low_word(ask.args[0]), low_half(ask.args[1])) {
        MakeStep::Done(listener) => {
            proc.listeners.add(listener);
            OutStep::Side(Side::Answer(written(id, number)))
        }
        MakeStep::Failed => answered(1),
        MakeStep::NoMemory => answered(12),
    }
}

/// The port of a listener.
fn local_port_step<E: Engine, O: Outside>(proc: &mut Proc<E, O>, ask: Ask) -> OutStep<O::Stream>
    requires number { ask.call ≡ 28 }
    requires asked { IsAsked (E.memory proc.old.engine) (shown_part proc.old) ask }
    requires order { AreInOrder proc.old }
    ensures step { ComesTo
        (told O.Stream.taken O.Stream.put O.Stream.faults O.Stream.waits O.Stream.empties O.Stream.down)
        (request_of (E.memory proc.old.engine) ask) proc.old proc.new result }
    ensures port { TellsPort O.Listener.number (request_of (E.memory proc.old.engine) ask) proc.old result }
{
    let Some(port) = proc.listeners.port(ask.args[0]) else {
        unreachable!()
    };
    answered(wide(port))
}

/// The next stream of a listener: 2 where 256 are there, 1 where it failed, 12 for want of memory.
fn accept_step<E: Engine, O: Outside>(
    proc: &mut Proc<E, O>,
    outside: &mut O,
    ask: Ask,
) -> OutStep<O::Stream>
    requires number { ask.call ≡ 29 }
    requires asked { IsAsked (E.memory proc.old.engine) (shown_part proc.old) ask }
    requires order { AreInOrder proc.old }
    ensures step { ComesTo
        (told O.Stream.taken O.Stream.put O.Stream.faults O.Stream.waits O.Stream.empties O.Stream.down)
        (request_of (E.memory proc.old.engine) ask) proc.old proc.new result }
    ensures outside { IfSome (side_in result) (λ side. OutsideGives
        (telling (O.faults outside.old) (O.waits outside.old) (O.rests outside.old) (O.clock outside.old))
        (telling (O.faults outside.new) (O.waits outside.new) (O.rests outside.new) (O.clock outside.new))
        (Some (request_of (E.memory proc.old.engine) ask)) side) }
    ensures untouched { side_in result ≡ None → outside.new ≡ outside.old }
    ensures entered { O.entered outside.new ≡ O.entered outside.old }
{
    if full(&proc.table) {
        return answered(2);
    }
    match accept_on(&mut proc.listeners, ask.args[0], outside) {
        Some(AcceptStep::Done(stream)) => OutStep::Opened(stream),
        Some(AcceptStep::NotReady) => OutStep::Side(Side::Pending),
        Some(AcceptStep::Failed) => answered(1),
        Some(AcceptStep::NoMemory) => answered(12),
        None => unreachable!(),
    }
}

// STREAMS

/// Opens a stream to an address and a port: 2 where 256 are there, 1 where it failed, 12 for want of memory.
fn connect_step<E: Engine, O: Outside>(
    proc: &mut Proc<E, O>,
    outside: &mut O,
    ask: Ask,
) -> OutStep<O::Stream>
    requires number { ask.call ≡ 30 }
    requires asked { IsAsked (E.memory proc.old.engine) (shown_part proc.old) ask }
    requires order { AreInOrder proc.old }
    ensures step { ComesTo
        (told O.Stream.taken O.Stream.put O.Stream.faults O.Stream.waits O.Stream.empties O.Stream.down)
        (request_of (E.memory proc.old.engine) ask) proc.old proc.new result }
    ensures outside { IfSome (side_in result) (λ side. OutsideGives
        (telling (O.faults outside.old) (O.waits outside.old) (O.rests outside.old) (O.clock outside.old))
        (telling (O.faults outside.new) (O.waits outside.new) (O.rests outside.new) (O.clock outside.new))
        (Some (request_of (E.memory proc.old.engine) ask)) side) }
    ensures untouched { side_in result ≡ None → outside.new ≡ outside.old }
    ensures entered { O.entered outside.new ≡ O.entered outside.old }
{
    if full(&proc.table) {
        return answered(2);
    }
    match outside.connect(low_word(ask.args[0]), low_half(ask.args[1])) {
        MakeStep::Done(stream) => OutStep::Opened(stream),
        MakeStep::Failed => answered(1),
        MakeStep::NoMemory => answered(12),
    }
}

/// Reads bytes of a stream: 0 with the bytes and their count, 1 where it failed.
fn read_step<E: Engine, O: Outside>(
    alloc: Global,
    proc: &mut Proc<E, O>,
    ask: Ask,
) -> OutStep<O::Stream>
    requires number { ask.call ≡ 31 }
    requires asked { IsAsked (E.memory proc.old.engine) (shown_part proc.old) ask }
    requires order { AreInOrder proc.old }
    ensures step { ComesTo
        (told O.Stream.taken O.Stream.put O.Stream.faults O.Stream.waits O.Stream.empties O.Stream.down)
        (request_of (E.memory proc.old.engine) ask) proc.old proc.new result }
{
    let addr = address(&proc.engine, ask.args[1]);
    let count_addr = address(&proc.engine, ask.args[3]);
    let len = ask.args[2].min(MOST) as usize;
    if len == 0 {
        return OutStep::Side(Side::Answer(moved(addr, Bytes::new(alloc), count_addr)));
    }
    let Ok(mut buffer) = vec![in alloc; 0u8; len] else {
        return OutStep::NoMemory;
    };
    match proc.table.read_step(ask.args[0], buffer.as_mut_slice()) {
        Some(IoStep::Done(count)) => {
            buffer.truncate(count);
            OutStep::Side(Side::Answer(moved(addr, Bytes::from_vec(buffer), count_addr)))
        }
        Some(IoStep::NotReady) => OutStep::Side(Side::Pending),
        Some(IoStep::Failed) => answered(1),
        None => unreachable!(),
    }
}

/// Writes bytes to a stream: 0 with the count of those that were written, 1 where it failed.
fn write_step<E: Engine, O: Outside>(proc: &mut Proc<E, O>, ask: Ask) -> OutStep<O::Stream>
    requires number { ask.call ≡ 32 }
    requires asked { IsAsked (E.memory proc.old.engine) (shown_part proc.old) ask }
    requires order { AreInOrder proc.old }
    ensures step { ComesTo
        (told O.Stream.taken O.Stream.put O.Stream.faults O.Stream.waits O.Stream.empties O.Stream.down)
        (request_of (E.memory proc.old.engine) ask) proc.old proc.new result }
{
    let addr = address(&proc.engine, ask.args[1]);
    let count_addr = address(&proc.engine, ask.args[3]);
    let len = ask.args[2].min(MOST) as u32;
    if len == 0 {
        return OutStep::Side(Side::Answer(counted(0, count_addr)));
    }
    let Some(piece) = proc.engine.read(addr, len) else {
        unreachable!()
    };
    match proc.table.write_step(ask.args[0], piece) {
        Some(IoStep::Done(count)) => OutStep::Side(Side::Answer(counted(count as u64, count_addr))),
        Some(IoStep::NotReady) => OutStep::Side(Side::Pending),
        Some(IoStep::Failed) => answered(1),
        None => unreachable!(),
    }
}
