ghost use Rattle.std.specs.Prelude.{◌≡◌, ◌+◌, ◌≤◌, OnOk, Some};
ghost use Rattle.std.specs.Option.{option_or};
ghost use Rattle.world_rules.specs.Calls.{call_of};
ghost use Rattle.world_rules.specs.Judge.{
  judge,
  charged,
  unless,
  needs_message,
  needs_handle,
  needs_config,
  needs_listener,
  needs_size,
  needs_spawn_config,
  push_fault,
  take_fault,
  own_fault,
  fault_of,
};
ghost use Rattle.plain_part.specs.Shown.{shown_part, shown_call, shown_judgement};

use crate::configs::config_at;
use crate::part::MOST_HANDLES;
use crate::{HostCall, PlainPart, argument, call_of, cost_of, is_among};
use host_port::{Request, Start};
use memory_refusal::NoMemory;
use world_rules::HostFault;

/// How a request is judged.
#[derive(Clone, Copy, Debug, PartialEq, Eq)]
pub enum Judgement {
    /// It is fit.
    Fit,
    /// Its traffic passes the limit.
    Overdrawn,
    /// A fault ends the process, and the call isn't performed.
    Faulty(HostFault),
}

/// How many streams may be pushed into a message.
const MOST_SLOTS: usize = 64;

/// The number that names no config: -1 as an i64.
const NO_CONFIG: u64 = 0xffff_ffff_ffff_ffff;

/// This fault, unless something holds.
fn unless(holds: bool, fault: HostFault) -> Option<HostFault>
    ensures { result ≡ unless holds fault }
{
    if holds { None } else { Some(fault) }
}

impl PlainPart {
    /// How the request is judged: first its areas, then its traffic, then the call's own faults.
    pub fn judge(&self, start: &Start, request: &Request) -> Judgement
        ensures { shown_judgement result ≡ judge start.now (shown_part self.now) request.now }
    {
        if !request.fits {
            return Judgement::Faulty(HostFault::BadPointer);
        }
        if u128::from(self.traffic) + cost_of(request) > u128::from(start.limits.traffic()) {
            return Judgement::Overdrawn;
        }
        match self.fault_of(request) {
            None => Judgement::Fit,
            Some(fault) => Judgement::Faulty(fault),
        }
    }

    /// Adds the cost of a request to the traffic. NoMemory comes where the sum would pass 2^64.
    pub fn charge(&mut self, request: &Request) -> Result<(), NoMemory>
        ensures { OnOk result (shown_part self.new ≡ charged request.now (shown_part self.old)) }
    {
        let traffic = u128::from(self.traffic) + cost_of(request);
        if traffic > 0xffff_ffff_ffff_ffff {
            return Err(NoMemory);
        }
        self.traffic = traffic as u64;
        Ok(())
    }

    /// The first fault of a request, in the order in which its faults are judged.
    fn fault_of(&self, request: &Request) -> Option<HostFault>
        ensures { result ≡ fault_of (call_of request.now) (shown_part self.now) request.now }
    {
        match call_of(request) {
            Some(call) => self.own_fault(call, request),
            None => None,
        }
    }

    /// A scratch message is needed.
    fn needs_message(&self) -> Option<HostFault>
        ensures { result ≡ needs_message (shown_part self.now) }
    {
        unless(self.scratch.is_some(), HostFault::NoMessage)
    }

    /// The stream is needed in the own table.
    fn needs_handle(&self, handle: u64) -> Option<HostFault>
        ensures { result ≡ needs_handle (shown_part self.now) handle }
    {
        unless(is_among(&self.handles, handle), HostFault::NoSuchHandle)
    }

    /// The config is needed.
    fn needs_config(&self, number: u64) -> Option<HostFault>
        ensures { result ≡ needs_config (shown_part self.now) number }
    {
        unless(
            config_at(&self.configs, number).is_some(),
            HostFault::NoSuchConfig,
        )
    }

    /// The listener is needed.
    fn needs_listener(&self, listener: u64) -> Option<HostFault>
        ensures { result ≡ needs_listener (shown_part self.now) listener }
    {
        unless(
            is_among(&self.listeners, listener),
            HostFault::NoSuchListener,
        )
    }

    /// A scratch message is needed, and the place lies within it.
    fn seek_fault(&self, place: u64) -> Option<HostFault>
        ensures { result ≡
            option_or (needs_message (shown_part self.now)) (needs_size (shown_part self.now).scratch place) }
    {
        match &self.scratch {
            Some(scratch) => unless(
                place <= scratch.message().bytes().len() as u64,
                HostFault::BadSeek,
            ),
            None => Some(HostFault::NoMessage),
        }
    }

    /// A spawn with a config needs it.
    fn needs_spawn_config(&self, number: u64) -> Option<HostFault>
        ensures { result ≡ needs_spawn_config (shown_part self.now) number }
    {
        if number == NO_CONFIG {
            None
        } else {
            self.needs_config(number)
        }
    }

    /// A stream can be pushed where there is a message, the stream is in the table, and fewer than 64 were pushed.
    fn push_fault(&self, handle: u64) -> Option<HostFault>
        ensures { result ≡ push_fault (shown_part self.now) handle }
    {
        let Some(scratch) = &self.scratch else {
            return Some(HostFault::NoMessage);
        };
        if !is_among(&self.handles, handle) {
            return Some(HostFault::NoSuchHandle);
        }
        unless(
            scratch.message().slots().len() < MOST_SLOTS,
            HostFault::PlacesFull,
        )
    }

    /// A stream can be taken where there is a message, the stream is at the place, and fewer than 256 are in the table.
    fn take_fault(&self, place: u64) -> Option<HostFault>
        ensures { result ≡ take_fault (shown_part self.now) place }
    {
        let Some(scratch) = &self.scratch else {
            return Some(HostFault::NoMessage);
        };
        if scratch.message().stream_at(place).is_none() {
            return Some(HostFault::EmptyPlace);
        }
        unless(self.handles.len() < MOST_HANDLES, HostFault::TableFull)
    }

    /// The first fault of a call; most calls have none.
    fn own_fault(&self, call: HostCall, request: &Request) -> Option<HostFault>
        ensures { result ≡ own_fault (shown_call call) (shown_part self.now) request.now }
    {
        match call {
            HostCall::WriteData => self.needs_message(),
            HostCall::ReadData => self.needs_message(),
            HostCall::SeekData => self.seek_fault(argument(request, 0)),
            HostCall::DataSize => self.needs_message(),
            HostCall::GetTag => self.needs_message(),
            HostCall::PushStream => self.push_fault(argument(request, 0)),
            HostCall::TakeStream => self.take_fault(argument(request, 0)),
            HostCall::Send => self.needs_message(),
            HostCall::Spawn => self.needs_spawn_config(argument(request, 1)),
            HostCall::DropConfig => self.needs_config(argument(request, 0)),
            HostCall::SetMaxMemory => self.needs_config(argument(request, 0)),
            HostCall::SetMaxFuel => self.needs_config(argument(request, 0)),
            HostCall::GetMaxMemory => self.needs_config(argument(request, 0)),
            HostCall::GetMaxFuel => self.needs_config(argument(request, 0)),
            HostCall::LocalPort => self.needs_listener(argument(request, 0)),
            HostCall::Accept => self.needs_listener(argument(request, 0)),
            HostCall::ReadStream => self.needs_handle(argument(request, 0)),
            HostCall::WriteStream => self.needs_handle(argument(request, 0)),
            HostCall::DropStream => self.needs_handle(argument(request, 0)),
            HostCall::DropListener => self.needs_listener(argument(request, 0)),
            _ => None,
        }
    }
}
