ghost use Rattle.std.specs.Prelude.{◌≡◌, ◌↔◌, IfOk, IsTrue, None};
ghost use Rattle.host_port.specs.declared.request.Request.{Request};
ghost use Rattle.world_rules.specs.Calls.{call_of};
ghost use Rattle.world_rules.specs.World.{Process};
ghost use Rattle.world_rules.specs.Births.{IsBorn, IsRefusedBirth, BirthFits};
ghost use Rattle.world_rules.specs.Spawn.{child_limits, IsChildStart, next_birth};
ghost use Rattle.world_rules.specs.Allowed.{SpawnFits};
ghost use Rattle.plain_part.specs.Shown.{shown_part};
ghost use Rattle.plain_world.specs.Shown.{shown_world};
ghost use Rattle.plain_world.specs.Parent.{parent_of};

use crate::PlainWorld;
use crate::allowed_sides::is_nothing;
use crate::child_start::{are_same_limits, spells};
use crate::performed::is_refused;
use host_port::{Limits, Request, Start};
use memory_refusal::NoMemory;
use plain_part::{HostCall, PlainPart, argument, call_of};
use spawn_config::lower;
use world_rules::{Birth, Side};

/// How many process numbers may be drawn.
const MOST_NUMBERS: u64 = 1_000_000;

/// The number that names no config: -1 as an i64.
const NO_CONFIG: u64 = 0xffff_ffff_ffff_ffff;

/// The limits of a config, if it is there.
fn config_of(part: &PlainPart, number: u64) -> Option<Limits>
    ensures { result ≡ (shown_part part.now).configs number }
{
    match part.configs.get(number as usize) {
        Some(limits) => *limits,
        None => None,
    }
}

/// The limits of a child.
fn child_limits(start: &Start, part: &PlainPart, config: u64) -> Limits
    ensures { result ≡ child_limits (parent_of start.now (shown_part part.now)) config }
{
    if config == NO_CONFIG {
        return start.limits;
    }
    match config_of(part, config) {
        Some(limits) => lower(limits, start.limits),
        None => start.limits,
    }
}

impl PlainWorld {
    /// The start of a child is the one that its parent asks for.
    fn is_child_start(
        &self,
        start: &Start,
        part: &PlainPart,
        request: &Request,
        child: &Start,
    ) -> Result<bool, NoMemory>
        ensures { IfOk result (λ fits. IsTrue fits ↔
            IsChildStart (shown_world self.now) (parent_of start.now (shown_part part.now)) request.now child.now) }
    {
        if child.pid == 0 || child.pid - 1 != self.numbers_drawn {
            return Ok(false);
        }
        if u64::from(child.module) != argument(request, 2) {
            return Ok(false);
        }
        if child.entry.as_slice() != request.first.as_slice() {
            return Ok(false);
        }
        if !are_same_limits(
            child.limits,
            child_limits(start, part, argument(request, 1)),
        ) {
            return Ok(false);
        }
        spells(
            self.alloc(),
            request.second.as_slice(),
            child.params.as_slice(),
        )
    }

    /// A child is born with this start.
    fn is_born(
        &self,
        start: &Start,
        part: &PlainPart,
        request: &Request,
        side: &Side,
        child: &Start,
    ) -> Result<bool, NoMemory>
        ensures { IfOk result (λ fits. IsTrue fits ↔
            IsBorn None (shown_world self.now) (parent_of start.now (shown_part part.now)) request.now side.now
            child.now) }
    {
        if !is_nothing(side) || self.numbers_drawn >= MOST_NUMBERS {
            return Ok(false);
        }
        self.is_child_start(start, part, request, child)
    }

    /// A birth is refused with this answer.
    fn is_refused_birth(&self, side: &Side, reply: u64) -> bool
        ensures { (parent : Process) (request : Request) → IsTrue result ↔
            IsRefusedBirth None (shown_world self.now) parent request side.now reply }
    {
        match reply {
            1 => is_nothing(side) && self.numbers_drawn < MOST_NUMBERS,
            2 => is_nothing(side),
            3 => is_nothing(side) && self.numbers_drawn >= MOST_NUMBERS,
            12 => is_refused(side) && self.numbers_drawn < MOST_NUMBERS,
            _ => false,
        }
    }

    /// A spawn has a birth, and it is the one that comes.
    fn birth_fits(
        &self,
        births: &[Birth],
        start: &Start,
        part: &PlainPart,
        request: &Request,
        side: &Side,
    ) -> Result<bool, NoMemory>
        ensures { IfOk result (λ fits. IsTrue fits ↔
            BirthFits None (shown_world self.now) (parent_of start.now (shown_part part.now)) request.now side.now
            (next_birth births.now (shown_world self.now))) }
    {
        match self.next_birth(births) {
            Some(Birth::Born(child)) => self.is_born(start, part, request, side, child),
            Some(Birth::Refused(reply)) => Ok(self.is_refused_birth(side, *reply)),
            None => Ok(false),
        }
    }

    /// A spawn that is performed has its birth.
    pub(crate) fn spawn_fits(
        &self,
        births: &[Birth],
        pid: u64,
        start: &Start,
        part: &PlainPart,
        request: &Request,
        side: &Side,
    ) -> Result<bool, NoMemory>
        ensures { IfOk result (λ fits. IsTrue fits ↔
            SpawnFits None births.now (call_of request.now) ((shown_world self.now).process pid).stage
            (shown_world self.now) (parent_of start.now (shown_part part.now)) request.now side.now) }
    {
        if !self.is_out(pid) {
            return Ok(true);
        }
        match call_of(request) {
            Some(HostCall::Spawn) => self.birth_fits(births, start, part, request, side),
            _ => Ok(true),
        }
    }
}
