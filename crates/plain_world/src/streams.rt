ghost use Rattle.std.specs.Prelude.{◌≡◌, ◌≤◌, ℕ, OnOk, length, nat_eq, if◌then◌else◌};
ghost use Rattle.world_rules.specs.Calls.{call_of};
ghost use Rattle.world_rules.specs.Streams.{after_side, streamed_by};
ghost use Rattle.plain_part.specs.Shown.{shown_call};
ghost use Rattle.plain_world.specs.Awaited.{is_streaming};
ghost use Rattle.plain_world.specs.Shown.{shown_world, streamed_in};

use crate::{PlainWorld, Streamed};
use host_port::Request;
use memory_refusal::NoMemory;
use plain_part::{HostCall, call_of};
use std::alloc::Global;
use world_rules::Side;

/// A read from a stream, or a write to one.
fn is_streaming(call: HostCall) -> bool
    ensures { result ≡ is_streaming (shown_call call) }
{
    matches!(call, HostCall::ReadStream | HostCall::WriteStream)
}

/// Streams on which nothing was streamed, so that the list is at least so long.
fn fill(alloc: Global, streamed: &mut Vec<Streamed>, len: usize) -> Result<(), NoMemory>
    ensures same { OnOk result (streamed_in streamed.new.items ≡ streamed_in streamed.old.items) }
    ensures long { OnOk result (len ≤ length streamed.new.items) }
{
    'filling: while streamed.len() < len {
        streamed.push(Streamed::new(alloc))?;
    }
    Ok(())
}

/// Counts what came beside a call to what was streamed on this stream.
fn stream_on(
    alloc: Global,
    streamed: &mut Vec<Streamed>,
    handle: u64,
    call: HostCall,
    request: &Request,
    side: &Side,
) -> Result<(), NoMemory>
    ensures { OnOk result (streamed_in streamed.new.items ≡ (λ (other : ℕ).
        if nat_eq other handle
        then after_side (shown_call call) request.now side.now (streamed_in streamed.old.items other)
        else streamed_in streamed.old.items other)) }
{
    let at = handle as usize;
    let Some(len) = at.checked_add(1) else {
        return Err(NoMemory);
    };
    fill(alloc, streamed, len)?;
    let on = &mut streamed[at];
    on.after_side(call, request, side)
}

impl PlainWorld {
    /// What was streamed by an answer, or could not be yet, is counted.
    pub(crate) fn stream(&mut self, request: &Request, side: &Side) -> Result<(), NoMemory>
        ensures { OnOk result (shown_world self.new ≡ record (shown_world self.old) {
          streamed = streamed_by (call_of request.now) request.now side.now (shown_world self.old).streamed;
        }) }
    {
        let Some(call) = call_of(request) else {
            return Ok(());
        };
        if !is_streaming(call) {
            return Ok(());
        }
        let alloc = self.alloc();
        let handle = request.ask.args[0];
        stream_on(alloc, &mut self.streamed, handle, call, request, side)
    }
}
