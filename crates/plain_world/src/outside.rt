ghost use Rattle.std.specs.Prelude.{◌≡◌, OnOk};
ghost use Rattle.world_rules.specs.Changes.{with_part};
ghost use Rattle.world_rules.specs.Outside.{
  stream_drawn,
  id_address,
  opened,
  opened_and_shut,
  bound,
  outside_performed,
};
ghost use Rattle.world_rules.specs.Settled.{settled, StreamOpened, ListenerBound};
ghost use Rattle.world_rules.specs.Streams.{has_result};
ghost use Rattle.plain_part.specs.Shown.{shown_call};
ghost use Rattle.plain_world.specs.Shown.{shown_world};

use crate::replies::written_reply;
use crate::{PlainMove, PlainWhat, PlainWorld};
use host_port::{Reply, Request};
use memory_refusal::NoMemory;
use plain_part::HostCall;
use world_rules::Side;

/// Where the number of an opened stream is written.
fn id_address(call: HostCall, request: &Request) -> u64
    ensures { result ≡ id_address (shown_call call) request.now }
{
    match call {
        HostCall::Accept => request.ask.args[1],
        _ => request.ask.args[2],
    }
}

/// The reply has this result.
pub(crate) fn has_result(n: u64, reply: &Reply) -> bool
    ensures { result ≡ has_result n reply.now }
{
    match reply.result {
        Some(number) => number == n,
        None => false,
    }
}

impl PlainWorld {
    /// The next stream number is drawn.
    fn draw_stream(&mut self) -> Result<(), NoMemory>
        ensures { OnOk result (shown_world self.new ≡ stream_drawn (shown_world self.old)) }
    {
        self.streams = self.streams.checked_add(1).ok_or(NoMemory)?;
        Ok(())
    }

    /// An opened stream joins the table of the process.
    fn settle_stream(&mut self, pid: u64, handle: u64) -> Result<(), NoMemory>
        ensures { OnOk result (shown_world self.new ≡
            with_part (shown_world self.old) pid
            (settled ((shown_world self.old).process pid).part (StreamOpened handle))) }
    {
        let mut process = self.take_process(pid);
        process.part.open_stream(handle)?;
        self.put_process(pid, process)
    }

    /// The process has the next listener.
    fn settle_listener(&mut self, pid: u64) -> Result<(), NoMemory>
        ensures { OnOk result (shown_world self.new ≡
            with_part (shown_world self.old) pid (settled ((shown_world self.old).process pid).part ListenerBound)) }
    {
        let mut process = self.take_process(pid);
        process.part.bind_listener()?;
        self.put_process(pid, process)
    }

    /// The next stream number is drawn into the caller's table, and the reply is 0 with the number at `id`.
    fn open(&mut self, call: HostCall, pid: u64, request: &Request) -> Result<(), NoMemory>
        ensures { OnOk result (shown_world self.new ≡
            opened (shown_call call) (shown_world self.old) pid request.now) }
    {
        let handle = self.streams;
        let reply = written_reply(0, id_address(call, request), handle)?;
        let what = PlainWhat::Opened(reply.try_clone()?);
        self.draw_stream()?;
        self.settle_stream(pid, handle)?;
        self.add_move(PlainMove::Opened { handle, pid })?;
        self.answer(pid, request, reply, what)
    }

    /// A stream that was opened for a doomed process is drawn and closed.
    pub(crate) fn open_and_shut(&mut self, pid: u64) -> Result<(), NoMemory>
        ensures { OnOk result (shown_world self.new ≡ opened_and_shut (shown_world self.old) pid) }
    {
        let handle = self.streams;
        self.draw_stream()?;
        self.add_closed(&[handle])?;
        self.add_move(PlainMove::Opened { handle, pid })?;
        self.add_move(PlainMove::Shut { handle })
    }

    /// A listener that was bound is the caller's.
    fn bind(&mut self, call: HostCall, pid: u64, reply: &Reply) -> Result<(), NoMemory>
        ensures { OnOk result (shown_world self.new ≡
            bound (shown_call call) (shown_world self.old) pid reply.now) }
    {
        match call {
            HostCall::Bind => {
                if has_result(0, reply) {
                    return self.settle_listener(pid);
                }
                Ok(())
            }
            _ => Ok(()),
        }
    }

    /// The caller gets what the outside answered, or the stream that was opened.
    pub(crate) fn outside(
        &mut self,
        call: HostCall,
        pid: u64,
        request: &Request,
        side: &Side,
    ) -> Result<(), NoMemory>
        ensures { OnOk result (shown_world self.new ≡
            outside_performed (shown_call call) (shown_world self.old) pid request.now side.now) }
    {
        match side {
            Side::Opened => self.open(call, pid, request),
            Side::Answer(reply) => {
                self.bind(call, pid, reply)?;
                self.reply(pid, request, reply.try_clone()?)
            }
            _ => Ok(()),
        }
    }
}
