ghost use Rattle.std.specs.Prelude.{◌≡◌, ◌+◌, ◌<◌, ◌++◌, Contains, None, Some, true, is_some, length, option_map, IfOk, OnOk, OnErr, IfSome};
ghost use Rattle.host_port.specs.HostTable.{is_local};
ghost use Rattle.message_scratch.specs.Messages.{slots_of};
ghost use Rattle.message_scratch.specs.Changes.{with_bytes, fitting, next_bytes, after_read, after_seek, is_within};
ghost use Rattle.message_scratch.specs.Refused.{handed_back};
ghost use Rattle.resource_table.specs.Handles.{numbers_of, with_handle};
ghost use Rattle.resource_table.specs.Steps.{told};
ghost use Rattle.plain_part.specs.Shown.{shown_call};
ghost use Rattle.world_rules.specs.Answers.{empty_reply, number_reply, text_reply};
ghost use Rattle.world_rules.specs.Calls.{call_of, arg};
ghost use Rattle.world_rules.specs.Handles.{local_closings};
ghost use Rattle.world_rules.specs.Judge.{Fit, judge, charged, cost_of, own_fault, needs_handle, push_fault, take_fault};
ghost use Rattle.world_rules.specs.Local.{local, local_reply, reply_from, written_bytes, read_bytes};
ghost use Rattle.world_rules.specs.Part.{handle_at, slots_of as slots_shown};
ghost use Rattle.node_state.specs.Seats.{IsOnce};
ghost use Rattle.host_calls.specs.Shown.{shown_scratch, shown_part, hands_of};
ghost use Rattle.host_calls.specs.Steps.{AreInOrder, HandsOver, IsStepOf, is_answered, listeners_after};
ghost use Rattle.host_calls.specs.Answering.{Makes, Creates, Pushes, Takes, DropsStream};

use crate::{Judgement, Proc, judge};
use host_port::{Bytes, Engine, Reply, Request, Text};
use memory_refusal::NoMemory;
use message_scratch::{PushRefused, Scratch, ScratchFault};
use outside::{Outside, Stream};
use plain_part::{HostCall, argument, call_of, cost_of};
use resource_table::{Owned, Resources};
use std::alloc::Global;
use world_rules::HostFault;

/// What became of a local call.
#[derive(Debug, Drop)]
pub enum LocalStep {
    /// It is answered so.
    Reply(Reply),
    /// A fault ends the process, and the call isn't performed.
    Fault(HostFault),
    /// Its traffic passes the limit.
    Spent,
    /// The machine refused memory.
    NoMemory,
}

/// Judges a local call, and performs it where it is fit. Where it isn't answered, the process stays as it was.
pub fn local<E: Engine, O: Outside>(
    alloc: Global,
    proc: &mut Proc<E, O>,
    request: &Request,
) -> LocalStep
    requires local { is_local request.now.ask.call ≡ true }
    requires order { AreInOrder proc.old }
    ensures engine { proc.new.engine ≡ proc.old.engine }
    ensures start { proc.new.start ≡ proc.old.start }
    ensures fuel { proc.new.fuel ≡ proc.old.fuel }
    ensures owed { proc.new.owed ≡ proc.old.owed }
    ensures order { AreInOrder proc.new }
    ensures step { IsStepOf request.now proc.old proc.new result }
    ensures handed { HandsOver
        (told O.Stream.taken O.Stream.put O.Stream.faults O.Stream.waits O.Stream.empties O.Stream.down)
        (hands_of proc.old) proc.old.shed (hands_of proc.new) proc.new.shed }
{
    match judge(proc, request) {
        Judgement::Fit => match perform(alloc, proc, request) {
            Ok(reply) => LocalStep::Reply(reply),
            Err(NoMemory) => LocalStep::NoMemory,
        },
        Judgement::Overdrawn => LocalStep::Spent,
        Judgement::Faulty(fault) => LocalStep::Fault(fault),
    }
}

/// The traffic with the cost of a request that is judged fit.
fn traffic_after<E: Engine, O: Outside>(proc: &Proc<E, O>, request: &Request) -> u64
    requires { judge proc.now.start (shown_part proc.now) request.now ≡ Fit }
    ensures { result ≡ proc.now.traffic + cost_of request.now }
{
    // The sum is within the limit, which is a u64.
    let _most = proc.start.limits.traffic();
    (u128::from(proc.traffic) + cost_of(request)) as u64
}

/// Adds the cost of a request that is judged fit.
pub(crate) fn charge<E: Engine, O: Outside>(proc: &mut Proc<E, O>, request: &Request)
    requires { judge proc.old.start (shown_part proc.old) request.now ≡ Fit }
    ensures engine { proc.new.engine ≡ proc.old.engine }
    ensures start { proc.new.start ≡ proc.old.start }
    ensures fuel { proc.new.fuel ≡ proc.old.fuel }
    ensures owed { proc.new.owed ≡ proc.old.owed }
    ensures scratch { proc.new.scratch ≡ proc.old.scratch }
    ensures table { proc.new.table ≡ proc.old.table }
    ensures shed { proc.new.shed ≡ proc.old.shed }
    ensures listeners { proc.new.listeners ≡ proc.old.listeners }
    ensures part { shown_part proc.new ≡ charged request.now (shown_part proc.old) }
{
    proc.traffic = traffic_after(proc, request);
}

/// Charges and performs a local call that is judged fit. `NoMemory` leaves the process as it was.
pub(crate) fn perform<E: Engine, O: Outside>(
    alloc: Global,
    proc: &mut Proc<E, O>,
    request: &Request,
) -> Result<Reply, NoMemory>
    requires fit { judge proc.old.start (shown_part proc.old) request.now ≡ Fit }
    requires local { is_local request.now.ask.call ≡ true }
    requires order { AreInOrder proc.old }
    ensures engine { proc.new.engine ≡ proc.old.engine }
    ensures start { proc.new.start ≡ proc.old.start }
    ensures fuel { proc.new.fuel ≡ proc.old.fuel }
    ensures owed { proc.new.owed ≡ proc.old.owed }
    ensures order { AreInOrder proc.new }
    ensures reply { IfOk result (λ reply.
        local proc.old.start (shown_part proc.old) request.now ≡ Some (reply, shown_part proc.new)) }
    ensures closed { OnOk result (numbers_of proc.new.shed
        ≡ numbers_of proc.old.shed ++ local_closings (call_of request.now) (shown_part proc.old) request.now) }
    ensures handed { HandsOver
        (told O.Stream.taken O.Stream.put O.Stream.faults O.Stream.waits O.Stream.empties O.Stream.down)
        (hands_of proc.old) proc.old.shed (hands_of proc.new) proc.new.shed }
    ensures listeners { OnOk result
        (proc.new.listeners ≡ listeners_after (call_of request.now) request.now proc.old.listeners) }
    ensures err { OnErr result (proc.new ≡ proc.old) }
{
    let traffic = traffic_after(proc, request);
    let Some(call) = call_of(request) else {
        unreachable!()
    };
    let reply = answer(alloc, proc, call, request)?;
    proc.traffic = traffic;
    Ok(reply)
}

/// What a call answers and makes of the process, whatever the traffic is.
fn answer<E: Engine, O: Outside>(
    alloc: Global,
    proc: &mut Proc<E, O>,
    call: HostCall,
    request: &Request,
) -> Result<Reply, NoMemory>
    requires answered { is_answered (shown_call call) ≡ true }
    requires fit { own_fault (shown_call call) (shown_part proc.old) request.now ≡ None }
    requires order { AreInOrder proc.old }
    ensures reply { IfOk result (λ reply.
        reply ≡ local_reply (shown_call call) proc.old.start (shown_part proc.old) request.now) }
    ensures makes { OnOk result (Makes
        (told O.Stream.taken O.Stream.put O.Stream.faults O.Stream.waits O.Stream.empties O.Stream.down)
        (shown_call call) request.now proc.old proc.new) }
    ensures err { OnErr result (proc.new ≡ proc.old) }
{
    match call {
        HostCall::CreateData => {
            create_data(proc, argument(request, 0));
            Ok(empty())
        }
        HostCall::WriteData => write_data(&mut proc.scratch, request),
        HostCall::ReadData => read_data(alloc, &mut proc.scratch, request),
        HostCall::SeekData => {
            let _found = proc.scratch.seek(argument(request, 0));
            Ok(empty())
        }
        HostCall::DataSize => Ok(data_size(&proc.scratch)),
        HostCall::GetTag => Ok(get_tag(&proc.scratch)),
        HostCall::PushStream => Ok(number(push_stream(proc, argument(request, 0))?)),
        HostCall::TakeStream => Ok(number(take_stream(proc, argument(request, 0)))),
        HostCall::ProcessId => Ok(number(proc.start.pid)),
        HostCall::DropStream => {
            drop_stream(proc, argument(request, 0));
            Ok(empty())
        }
        HostCall::DropListener => {
            proc.listeners.drop_one(argument(request, 0));
            Ok(empty())
        }
        HostCall::Print => Ok(empty()),
        _ => unreachable!(),
    }
}

/// The reply that is nothing.
fn empty() -> Reply
    ensures { result ≡ empty_reply }
{
    Reply {
        result: None,
        word: None,
        text: None,
    }
}

/// The reply that is a number.
fn number(n: u64) -> Reply
    ensures { result ≡ number_reply n }
{
    Reply {
        result: Some(n),
        word: None,
        text: None,
    }
}

/// A new scratch message. The streams of the old one are shut.
fn create_data<E: Engine, O: Outside>(proc: &mut Proc<E, O>, tag: u64)
    requires order { AreInOrder proc.old }
    ensures { Creates (told O.Stream.taken O.Stream.put O.Stream.faults O.Stream.waits O.Stream.empties O.Stream.down)
        tag proc.old proc.new }
{
    proc.scratch.create(tag, &mut proc.shed);
}

/// Writes behind the bytes of the scratch message, as many as it still holds, and answers how many.
fn write_data<S: Stream>(scratch: &mut Scratch<S>, request: &Request) -> Result<Reply, NoMemory>
    requires { is_some scratch.old ≡ true }
    ensures reply { IfOk result (λ reply. reply ≡ reply_from (shown_scratch scratch.old)
        (λ s. number_reply (length (written_bytes s request.now)))) }
    ensures written { OnOk result
        (scratch.new ≡ option_map (λ s. with_bytes (fitting request.now.first s) s) scratch.old) }
    ensures err { OnErr result (scratch.new ≡ scratch.old) }
{
    match scratch.write(request.first.as_slice()) {
        Ok(count) => Ok(number(u64::from(count))),
        Err(ScratchFault::NoMessage) => unreachable!(),
        Err(ScratchFault::NoMemory) => Err(NoMemory),
    }
}

/// Reads from the read place of the scratch message on: answers how many bytes, and writes them.
fn read_data<S: Stream>(
    alloc: Global,
    scratch: &mut Scratch<S>,
    request: &Request,
) -> Result<Reply, NoMemory>
    requires { is_some scratch.old ≡ true }
    ensures reply { IfOk result (λ reply. reply ≡ reply_from (shown_scratch scratch.old)
        (λ s. text_reply (length (read_bytes s request.now)) (arg request.now 0) (read_bytes s request.now))) }
    ensures moved { OnOk result (scratch.new ≡ option_map (after_read (arg request.now 1)) scratch.old) }
    ensures err { OnErr result (scratch.new ≡ scratch.old) }
{
    // No address of 32 bits or more lies in a memory, so no request that was asked ends here.
    let Ok(addr) = u32::try_from(argument(request, 0)) else {
        return Err(NoMemory);
    };
    let bytes = take_bytes(alloc, scratch, argument(request, 1))?;
    Ok(Reply {
        result: Some(bytes.len() as u64),
        word: None,
        text: Some(Text { addr, bytes }),
    })
}

/// A copy of the next bytes of the scratch message, which are read by it.
fn take_bytes<S: Stream>(
    alloc: Global,
    scratch: &mut Scratch<S>,
    len: u64,
) -> Result<Bytes, NoMemory>
    requires { is_some scratch.old ≡ true }
    ensures bytes { IfOk result (λ bytes. option_map (next_bytes len) scratch.old ≡ Some bytes) }
    ensures moved { OnOk result (scratch.new ≡ option_map (after_read len) scratch.old) }
    ensures err { OnErr result (scratch.new ≡ scratch.old) }
{
    let Some(size) = scratch.size() else {
        unreachable!()
    };
    // Room is made first, so that no byte is read that isn't answered.
    let mut copy = Vec::new(alloc);
    copy.reserve(size.min(len) as usize)?;
    // A message has fewer bytes than a u32 counts.
    let Some(bytes) = scratch.read(len.min(0xffff_ffff) as u32) else {
        unreachable!()
    };
    match copy.extend_from_slice(bytes) {
        Ok(()) => Ok(Bytes::from_vec(copy)),
        Err(_) => unreachable!(),
    }
}

/// How many bytes the scratch message has.
fn data_size<S: Stream>(scratch: &Scratch<S>) -> Reply
    requires { is_some scratch.now ≡ true }
    ensures { result ≡ reply_from (shown_scratch scratch.now) (λ s. number_reply (length s.message.bytes)) }
{
    let Some(size) = scratch.size() else {
        unreachable!()
    };
    number(size)
}

/// The tag of the scratch message.
fn get_tag<S: Stream>(scratch: &Scratch<S>) -> Reply
    requires { is_some scratch.now ≡ true }
    ensures { result ≡ reply_from (shown_scratch scratch.now) (λ s. number_reply s.message.tag) }
{
    let Some(tag) = scratch.tag() else {
        unreachable!()
    };
    number(tag)
}

/// Moves a stream from the table into the next place of the scratch message, and tells that place.
fn push_stream<E: Engine, O: Outside>(proc: &mut Proc<E, O>, handle: u64) -> Result<u64, NoMemory>
    requires fit { push_fault (shown_part proc.old) handle ≡ None }
    ensures place { IfOk result (λ place. place ≡ length (slots_of proc.old.scratch)) }
    ensures pushes { OnOk result (Pushes handle proc.old proc.new) }
    ensures err { OnErr result (proc.new ≡ proc.old) }
{
    // The table rises, and has 256 places at most.
    let _count = proc.table.count();
    let Some(moved) = proc.table.give_out(handle) else {
        unreachable!()
    };
    match proc.scratch.push_stream(moved) {
        Ok(place) => Ok(place),
        Err(refused) => {
            put(&mut proc.table, handed_back(refused));
            Err(NoMemory)
        }
    }
}

/// The stream that was not pushed.
fn handed_back<S: Stream>(refused: PushRefused<S>) -> Owned<S>
    ensures { result ≡ handed_back refused }
{
    match refused {
        PushRefused::NoMessage(back) => back,
        PushRefused::PlacesFull(back) => back,
        PushRefused::NoMemory(back) => back,
    }
}

/// Moves a stream out of its place in the scratch message into the table, and tells its number.
fn take_stream<E: Engine, O: Outside>(proc: &mut Proc<E, O>, place: u64) -> u64
    requires fit { take_fault (shown_part proc.old) place ≡ None }
    requires once { IsOnce (shown_part proc.old) }
    ensures number { handle_at (slots_shown (shown_scratch proc.old.scratch)) place ≡ Some result }
    ensures takes { Takes place proc.old proc.new }
{
    let _count = proc.table.count();
    let Some(moved) = proc.scratch.take_stream(place) else {
        unreachable!()
    };
    let number = moved.number();
    put(&mut proc.table, moved);
    number
}

/// Puts a stream into a table that has room for it.
fn put<S: Stream>(table: &mut Resources<S>, moved: Owned<S>)
    requires new { ¬ Contains (numbers_of table.old) moved.number }
    requires room { length table.old < 256 }
    ensures { table.new ≡ with_handle moved table.old }
{
    match table.put(moved) {
        Ok(()) => {}
        Err(_) => unreachable!(),
    }
}

/// Shuts a stream of the table.
fn drop_stream<E: Engine, O: Outside>(proc: &mut Proc<E, O>, handle: u64)
    requires fit { needs_handle (shown_part proc.old) handle ≡ None }
    requires order { AreInOrder proc.old }
    ensures { DropsStream
        (told O.Stream.taken O.Stream.put O.Stream.faults O.Stream.waits O.Stream.empties O.Stream.down)
        handle proc.old proc.new }
{
    let _count = proc.table.count();
    let Some(moved) = proc.table.give_out(handle) else {
        unreachable!()
    };
    proc.shed.shut(moved);
}
