ghost use Rattle.std.specs.Prelude.{◌≡◌, None, Some, is_some};
ghost use Rattle.std.specs.Option.{option_or};
ghost use Rattle.plain_part.specs.Shown.{shown_call};
ghost use Rattle.world_rules.specs.Calls.{call_of};
ghost use Rattle.world_rules.specs.Judge.{
  judge,
  unless,
  needs_message,
  needs_handle,
  needs_listener,
  needs_size,
  needs_spawn_config,
  push_fault,
  take_fault,
  own_fault,
  fault_of,
};
ghost use Rattle.host_calls.specs.Shown.{shown_part, shown_judgement};

use crate::Proc;
use host_port::{Engine, Request};
use outside::Outside;
use plain_part::{HostCall, argument, call_of, cost_of};
use world_rules::HostFault;

/// How a request is judged.
#[derive(Clone, Copy, Debug, PartialEq, Eq)]
pub enum Judgement {
    /// It is fit.
    Fit,
    /// Its traffic passes the limit.
    Overdrawn,
    /// A fault ends the process, and the call isn't performed.
    Faulty(HostFault),
}

/// The number that names no config: -1 as an i64.
const NO_CONFIG: u64 = 0xffff_ffff_ffff_ffff;

/// How many streams may be pushed into a message.
const MOST_PUSHES: u32 = 64;

/// How many streams a table holds.
const MOST_STREAMS: u32 = 256;

/// How a request of the process is judged: first its areas, then its traffic, then the call's own faults.
pub fn judge<E: Engine, O: Outside>(proc: &Proc<E, O>, request: &Request) -> Judgement
    ensures { shown_judgement result ≡ judge proc.now.start (shown_part proc.now) request.now }
{
    if !request.fits {
        return Judgement::Faulty(HostFault::BadPointer);
    }
    if u128::from(proc.traffic) + cost_of(request) > u128::from(proc.start.limits.traffic()) {
        return Judgement::Overdrawn;
    }
    match fault_of(proc, request) {
        None => Judgement::Fit,
        Some(fault) => Judgement::Faulty(fault),
    }
}

/// The first fault of a request, in the order in which its faults are judged.
fn fault_of<E: Engine, O: Outside>(proc: &Proc<E, O>, request: &Request) -> Option<HostFault>
    ensures { result ≡ fault_of (call_of request.now) (shown_part proc.now) request.now }
{
    match call_of(request) {
        Some(call) => own_fault(proc, call, request),
        None => None,
    }
}

/// The first fault of a call; most calls have none. A process has no stream, no listener and no config, so a call that
/// needs one of these has its fault.
fn own_fault<E: Engine, O: Outside>(
    proc: &Proc<E, O>,
    call: HostCall,
    request: &Request,
) -> Option<HostFault>
    ensures { result ≡ own_fault (shown_call call) (shown_part proc.now) request.now }
{
    match call {
        HostCall::WriteData => message_fault(proc),
        HostCall::ReadData => message_fault(proc),
        HostCall::SeekData => seek_fault(proc, argument(request, 0)),
        HostCall::DataSize => message_fault(proc),
        HostCall::GetTag => message_fault(proc),
        HostCall::PushStream => push_fault(proc, argument(request, 0)),
        HostCall::TakeStream => take_fault(proc, argument(request, 0)),
        HostCall::Send => message_fault(proc),
        HostCall::Spawn => spawn_fault(proc, argument(request, 1)),
        HostCall::DropConfig => Some(HostFault::NoSuchConfig),
        HostCall::SetMaxMemory => Some(HostFault::NoSuchConfig),
        HostCall::SetMaxFuel => Some(HostFault::NoSuchConfig),
        HostCall::GetMaxMemory => Some(HostFault::NoSuchConfig),
        HostCall::GetMaxFuel => Some(HostFault::NoSuchConfig),
        HostCall::LocalPort => listener_fault(proc, argument(request, 0)),
        HostCall::Accept => listener_fault(proc, argument(request, 0)),
        HostCall::ReadStream => handle_fault(proc, argument(request, 0)),
        HostCall::WriteStream => handle_fault(proc, argument(request, 0)),
        HostCall::DropStream => handle_fault(proc, argument(request, 0)),
        HostCall::DropListener => listener_fault(proc, argument(request, 0)),
        _ => None,
    }
}

/// A scratch message is needed.
fn message_fault<E: Engine, O: Outside>(proc: &Proc<E, O>) -> Option<HostFault>
    ensures { result ≡ needs_message (shown_part proc.now) }
{
    match proc.scratch.tag() {
        Some(_) => None,
        None => Some(HostFault::NoMessage),
    }
}

/// A scratch message is needed, and the place lies within it or at its end.
fn seek_fault<E: Engine, O: Outside>(proc: &Proc<E, O>, place: u64) -> Option<HostFault>
    ensures { result ≡
        option_or (needs_message (shown_part proc.now)) (needs_size (shown_part proc.now).scratch place) }
{
    match proc.scratch.size() {
        Some(size) => {
            if place <= size {
                None
            } else {
                Some(HostFault::BadSeek)
            }
        }
        None => Some(HostFault::NoMessage),
    }
}

/// The stream is needed in the own table.
fn handle_fault<E: Engine, O: Outside>(proc: &Proc<E, O>, handle: u64) -> Option<HostFault>
    ensures { result ≡ needs_handle (shown_part proc.now) handle }
{
    if proc.table.has(handle) {
        None
    } else {
        Some(HostFault::NoSuchHandle)
    }
}

/// The listener is needed.
fn listener_fault<E: Engine, O: Outside>(proc: &Proc<E, O>, listener: u64) -> Option<HostFault>
    ensures { result ≡ needs_listener (shown_part proc.now) listener }
{
    if proc.listeners.has(listener) {
        None
    } else {
        Some(HostFault::NoSuchListener)
    }
}

/// A scratch message is needed, then the stream, then a place for it.
fn push_fault<E: Engine, O: Outside>(proc: &Proc<E, O>, handle: u64) -> Option<HostFault>
    ensures { result ≡ push_fault (shown_part proc.now) handle }
{
    let Some(pushes) = proc.scratch.pushes() else {
        return Some(HostFault::NoMessage);
    };
    if !proc.table.has(handle) {
        return Some(HostFault::NoSuchHandle);
    }
    if pushes < MOST_PUSHES {
        None
    } else {
        Some(HostFault::PlacesFull)
    }
}

/// A scratch message is needed, then a stream at the place, then room for it in the table.
fn take_fault<E: Engine, O: Outside>(proc: &Proc<E, O>, place: u64) -> Option<HostFault>
    ensures { result ≡ take_fault (shown_part proc.now) place }
{
    if proc.scratch.tag().is_none() {
        return Some(HostFault::NoMessage);
    }
    if proc.scratch.at(place).is_none() {
        return Some(HostFault::EmptyPlace);
    }
    if proc.table.count() < MOST_STREAMS {
        None
    } else {
        Some(HostFault::TableFull)
    }
}

/// A spawn with a config needs it.
fn spawn_fault<E: Engine, O: Outside>(proc: &Proc<E, O>, number: u64) -> Option<HostFault>
    ensures { result ≡ needs_spawn_config (shown_part proc.now) number }
{
    if number == NO_CONFIG {
        None
    } else {
        Some(HostFault::NoSuchConfig)
    }
}
