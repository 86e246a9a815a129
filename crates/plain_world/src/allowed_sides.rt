ghost use Rattle.std.specs.Prelude.{◌≡◌, ◌↔◌, ℕ, IsTrue, Some};
ghost use Rattle.host_port.specs.declared.row.MayCome.TheVariants as Beside;
ghost use Rattle.world_rules.specs.declared.entry.Side.TheVariants as SideIs;
ghost use Rattle.world_rules.specs.Calls.{call_of};
ghost use Rattle.world_rules.specs.Kinds.{may_come};
ghost use Rattle.world_rules.specs.Part.{Part};
ghost use Rattle.world_rules.specs.World.{World};
ghost use Rattle.world_rules.specs.Allowed.{plain_answer, is_out, IsRefusal, SideFits};
ghost use Rattle.plain_part.specs.Shown.{shown_part};
ghost use Rattle.plain_world.specs.Shown.{shown_world};

use crate::allowed_answers::{answer_fits, pending_fits};
use crate::{PlainStage, PlainWorld};
use host_port::{MayCome, Request};
use plain_part::{HostCall, PlainPart, argument, call_of, is_refusable, may_come};
use world_rules::Side;

/// Nothing came from outside.
pub(crate) fn is_nothing(side: &Side) -> bool
    ensures { IsTrue result ↔ (side.now ≡ SideIs.Nothing) }
{
    matches!(side, Side::Nothing)
}

/// What may come beside a call that the outside answers.
fn outside_fits(
    pending: bool,
    opened: bool,
    part: &PlainPart,
    request: &Request,
    side: &Side,
) -> bool
    ensures { (w : World) (pid : ℕ) → IsTrue result ↔
        SideFits (Some (Beside.Answer pending opened)) w pid (shown_part part.now) request.now side.now }
{
    match side {
        Side::Answer(reply) => answer_fits(part, request, reply),
        Side::Pending => pending && pending_fits(part, request),
        Side::Opened => opened && !part.handles_full(),
        Side::Nothing | Side::Clock(_) | Side::NoMemory => false,
    }
}

impl PlainWorld {
    /// What a refusable call would be answered without the refusal.
    fn plain_answer(&self, pid: u64, request: &Request) -> u64
        ensures { result ≡ plain_answer (call_of request.now) (shown_world self.now) pid request.now }
    {
        match call_of(request) {
            Some(HostCall::Send) => self.send_answer(argument(request, 0), false),
            Some(HostCall::Link) => self.link_answer(pid, argument(request, 1), false),
            Some(HostCall::RegistryPut) => self.put_answer(argument(request, 2), false),
            _ => 0,
        }
    }

    /// A worker has the process, and it isn't doomed.
    pub(crate) fn is_out(&self, pid: u64) -> bool
        ensures { result ≡ is_out ((shown_world self.now).process pid).stage }
    {
        match self.at(pid) {
            Some(process) => matches!(process.stage, PlainStage::Out(_)),
            None => false,
        }
    }

    /// Memory was refused to a call that would be answered 0.
    fn is_refusal(&self, pid: u64, request: &Request) -> bool
        ensures { IsTrue result ↔ IsRefusal (shown_world self.now) pid request.now }
    {
        is_refusable(request) && self.is_out(pid) && self.plain_answer(pid, request) == 0
    }

    /// What may come beside a call that needs nothing: nothing, or the refusal of memory.
    fn nothing_fits(&self, pid: u64, request: &Request, side: &Side) -> bool
        ensures { (part : Part) → IsTrue result ↔
            SideFits (Some Beside.Nothing) (shown_world self.now) pid part request.now side.now }
    {
        match side {
            Side::Nothing => true,
            Side::NoMemory => self.is_refusal(pid, request),
            Side::Clock(_) | Side::Pending | Side::Answer(_) | Side::Opened => false,
        }
    }

    /// What may come beside a request.
    pub(crate) fn side_fits(
        &self,
        pid: u64,
        part: &PlainPart,
        request: &Request,
        side: &Side,
    ) -> bool
        ensures { IsTrue result ↔
            SideFits (may_come request.now) (shown_world self.now) pid (shown_part part.now) request.now side.now }
    {
        match may_come(request) {
            Some(MayCome::Nothing) => self.nothing_fits(pid, request, side),
            Some(MayCome::Clock) => matches!(side, Side::Clock(_)),
            Some(MayCome::Answer { pending, opened }) => outside_fits(
                pending, opened, part, request, side,
            ),
            None => false,
        }
    }
}
