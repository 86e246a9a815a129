ghost use Rattle.std.specs.Prelude.{◌≡◌, OnOk, option_map};
ghost use Rattle.world_rules.specs.Calls.{call_of};
ghost use Rattle.world_rules.specs.Rules.{exists_performed, call_performed, performed, asked};
ghost use Rattle.world_rules.specs.Views.{is_refused, is_pending};
ghost use Rattle.plain_part.specs.Shown.{shown_call};
ghost use Rattle.plain_world.specs.Shown.{shown_world};

use crate::PlainWorld;
use crate::replies::number_reply;
use host_port::Request;
use memory_refusal::NoMemory;
use plain_part::{HostCall, call_of};
use world_rules::{Birth, Side};

/// Memory was refused.
pub(crate) fn is_refused(side: &Side) -> bool
    ensures { result ≡ is_refused side.now }
{
    matches!(side, Side::NoMemory)
}

/// The outside can't answer yet.
pub(crate) fn is_pending(side: &Side) -> bool
    ensures { result ≡ is_pending side.now }
{
    matches!(side, Side::Pending)
}

impl PlainWorld {
    /// Exists: 1 where a live process has the number, else 0.
    fn exists(&mut self, pid: u64, request: &Request) -> Result<(), NoMemory>
        ensures { OnOk result (shown_world self.new ≡ exists_performed (shown_world self.old) pid request.now) }
    {
        let answer = if self.is_live(request.ask.args[0]) {
            1
        } else {
            0
        };
        self.reply(pid, request, number_reply(answer))
    }

    /// A call of the world or of the outside is performed; a local call never is.
    fn perform_call(
        &mut self,
        births: &[Birth],
        call: HostCall,
        pid: u64,
        request: &Request,
        side: &Side,
    ) -> Result<(), NoMemory>
        ensures { OnOk result (shown_world self.new ≡
            call_performed births.now (shown_call call) (shown_world self.old) pid request.now side.now) }
    {
        match call {
            HostCall::Send => self.send(pid, request, is_refused(side)),
            HostCall::Receive => self.receive(pid, request),
            HostCall::Exists => self.exists(pid, request),
            HostCall::Spawn => self.spawn(births, pid, request),
            HostCall::Kill => self.kill(pid, request),
            HostCall::Link => self.link(pid, request, is_refused(side)),
            HostCall::Unlink => self.unlink(pid, request),
            HostCall::DieWhenLinkDies => self.mind_links(pid, request),
            HostCall::SleepMs => self.sleep(pid, request),
            HostCall::RegistryPut => self.register(pid, request, is_refused(side)),
            HostCall::RegistryGet => self.look_up(pid, request),
            HostCall::RegistryRemove => self.unregister(pid, request),
            HostCall::Bind => self.outside(HostCall::Bind, pid, request, side),
            HostCall::LocalPort => self.outside(HostCall::LocalPort, pid, request, side),
            HostCall::Accept => self.outside(HostCall::Accept, pid, request, side),
            HostCall::Connect => self.outside(HostCall::Connect, pid, request, side),
            HostCall::ReadStream => self.outside(HostCall::ReadStream, pid, request, side),
            HostCall::WriteStream => self.outside(HostCall::WriteStream, pid, request, side),
            _ => Ok(()),
        }
    }

    /// The call that a request asks for is performed.
    pub(crate) fn perform(
        &mut self,
        births: &[Birth],
        pid: u64,
        request: &Request,
        side: &Side,
    ) -> Result<(), NoMemory>
        ensures { OnOk result (shown_world self.new ≡
            performed births.now (call_of request.now) (shown_world self.old) pid request.now side.now) }
    {
        match call_of(request) {
            Some(call) => self.perform_call(births, call, pid, request, side),
            None => Ok(()),
        }
    }

    /// A request that can't be answered yet is kept for the next turn; any other is performed.
    pub(crate) fn ask(
        &mut self,
        births: &[Birth],
        pid: u64,
        request: &Request,
        side: &Side,
    ) -> Result<(), NoMemory>
        ensures { OnOk result (shown_world self.new ≡
            asked (is_pending side.now) births.now (shown_world self.old) pid request.now side.now) }
    {
        if is_pending(side) {
            return self.pend(pid, request);
        }
        self.perform(births, pid, request, side)
    }
}
