ghost use Rattle.std.specs.Prelude.{◌≡◌, ◌↔◌, ◌-◌, IfOk, IsTrue, None, length};
ghost use Rattle.turn_rules.specs.Turn.{IsUsedUp};
ghost use Rattle.world_rules.specs.declared.halt.Halt.TheVariants as HaltIs;
ghost use Rattle.world_rules.specs.Judge.{judge, Faulty};
ghost use Rattle.world_rules.specs.Local.{part_after};
ghost use Rattle.world_rules.specs.Views.{want_of};
ghost use Rattle.world_rules.specs.World.{Process};
ghost use Rattle.world_rules.specs.Allowed.{
  IsWith,
  BesideFits,
  AskFits,
  WantFits,
  TurnFits,
  RetryFits,
  GiveFits,
};
ghost use Rattle.plain_part.specs.Shown.{shown_part};
ghost use Rattle.plain_world.specs.Give.{shown_give};
ghost use Rattle.plain_world.specs.Stage.{shown_stage};
ghost use Rattle.plain_world.specs.ShownProcess.{shown_process};
ghost use Rattle.plain_world.specs.Shown.{shown_world};

use crate::allowed_sides::is_nothing;
use crate::{PlainGive, PlainProcess, PlainStage, PlainWorld};
use host_port::{Request, Start};
use memory_refusal::NoMemory;
use plain_part::{Judgement, PlainPart, is_local};
use world_rules::{Birth, Halt, HostFault};

/// How much fuel a turn burns at most.
const TURN_FUEL: u64 = 10_000;

/// How many local calls a turn answers at most.
const MOST_ANSWERS: usize = 64;

/// The process is out to this worker, or doomed under it.
fn is_with(stage: &PlainStage, worker: u8) -> bool
    ensures { IsTrue result ↔ IsWith (shown_stage stage.now) worker }
{
    match stage {
        PlainStage::Out(other) | PlainStage::Doomed(other, _) => *other == worker,
        PlainStage::Unborn | PlainStage::Ready | PlainStage::Waiting(_) | PlainStage::Ended(_) => {
            false
        }
    }
}

/// A bound of a turn is reached.
fn is_used_up(used: u64, answers: usize) -> bool
    ensures { IsTrue result ↔ ∥ IsUsedUp used answers ∥₁ }
{
    used >= TURN_FUEL || answers == MOST_ANSWERS
}

/// A request is judged to be this fault.
fn is_fault(start: &Start, part: &PlainPart, request: &Request, fault: HostFault) -> bool
    ensures { IsTrue result ↔ (judge start.now (shown_part part.now) request.now ≡ Faulty fault) }
{
    match part.judge(start, request) {
        Judgement::Faulty(found) => found == fault,
        Judgement::Fit | Judgement::Overdrawn => false,
    }
}

impl PlainWorld {
    /// What comes beside a request fits, the process standing so after its turn.
    fn beside_fits(
        &self,
        births: &[Birth],
        give: &PlainGive<'_>,
        start: &Start,
        part: &PlainPart,
        request: &Request,
    ) -> Result<bool, NoMemory>
        ensures { IfOk result (λ fits. (after : Process) → after.start ≡ start.now → after.part ≡ shown_part part.now →
            (IsTrue fits ↔ BesideFits None births.now (shown_world self.now) after (shown_give give.now) request.now)) }
    {
        if !self.side_fits(give.pid, part, request, give.side) {
            return Ok(false);
        }
        self.spawn_fits(births, give.pid, start, part, request, give.side)
    }

    /// A turn may end by asking so.
    fn ask_fits(
        &self,
        births: &[Birth],
        process: &PlainProcess,
        give: &PlainGive<'_>,
        part: PlainPart,
        request: &Request,
    ) -> Result<bool, NoMemory>
        requires part { shown_part part ≡
            part_after process.now.start (shown_part process.now.part) give.now.calls.now }
        requires asks { give.now.halt.now ≡ HaltIs.Asks request.now }
        ensures { IfOk result (λ fits. IsTrue fits ↔
            AskFits None births.now (shown_world self.now) (shown_process process.now) (shown_give give.now)
            request.now) }
    {
        if is_local(request) {
            return Ok(false);
        }
        let Judgement::Fit = part.judge(&process.start, request) else {
            return Ok(false);
        };
        let mut after = part;
        after.charge(request)?;
        self.beside_fits(births, give, &process.start, &after, request)
    }

    /// What a turn may end with, its local calls done.
    fn want_fits(
        &self,
        births: &[Birth],
        process: &PlainProcess,
        give: &PlainGive<'_>,
        part: PlainPart,
        used_up: bool,
    ) -> Result<bool, NoMemory>
        requires part { shown_part part ≡
            part_after process.now.start (shown_part process.now.part) give.now.calls.now }
        requires used { IsTrue used_up ↔ ∥ IsUsedUp (give.now.fuel - process.now.fuel) (length give.now.calls.now) ∥₁ }
        ensures { IfOk result (λ fits. IsTrue fits ↔
            WantFits None births.now (shown_world self.now) (shown_process process.now) (shown_give give.now)
            (want_of give.now.halt.now)) }
    {
        match give.halt {
            Halt::Slice => Ok(is_nothing(give.side) && used_up),
            Halt::Asks(request) => self.ask_fits(births, process, give, part, request),
            Halt::Done | Halt::Trap(_) | Halt::Spent(_) | Halt::NoMemory => Ok(is_nothing(
                give.side,
            )),
            Halt::Host(fault, request) => {
                Ok(is_nothing(give.side) && is_fault(&process.start, &part, request, *fault))
            }
            Halt::Again => Ok(false),
        }
    }

    /// A turn of its own.
    fn turn_fits(
        &self,
        births: &[Birth],
        process: &PlainProcess,
        give: &PlainGive<'_>,
    ) -> Result<bool, NoMemory>
        ensures { IfOk result (λ fits. IsTrue fits ↔
            TurnFits None births.now (shown_world self.now) (shown_process process.now) (shown_give give.now)) }
    {
        if give.fuel < process.fuel {
            return Ok(false);
        }
        let used = give.fuel - process.fuel;
        if used > TURN_FUEL {
            return Ok(false);
        }
        if give.calls.len() > MOST_ANSWERS {
            return Ok(false);
        }
        let mut part = process.part.try_clone()?;
        if !part.run_answered(&process.start, give.calls)? {
            return Ok(false);
        }
        self.want_fits(
            births,
            process,
            give,
            part,
            is_used_up(used, give.calls.len()),
        )
    }

    /// A turn that only tries a request again.
    fn retry_fits(
        &self,
        births: &[Birth],
        process: &PlainProcess,
        give: &PlainGive<'_>,
        request: &Request,
    ) -> Result<bool, NoMemory>
        ensures { IfOk result (λ fits. IsTrue fits ↔
            RetryFits None births.now (shown_world self.now) (shown_process process.now) (shown_give give.now)
            request.now) }
    {
        if !give.calls.is_empty() || give.fuel != process.fuel {
            return Ok(false);
        }
        match give.halt {
            Halt::Again => self.beside_fits(births, give, &process.start, &process.part, request),
            Halt::NoMemory => Ok(is_nothing(give.side)),
            Halt::Slice
            | Halt::Asks(_)
            | Halt::Done
            | Halt::Trap(_)
            | Halt::Spent(_)
            | Halt::Host(_, _) => Ok(false),
        }
    }

    /// The process may be given back so.
    pub(crate) fn give_fits(&self, births: &[Birth], give: &PlainGive<'_>) -> Result<bool, NoMemory>
        ensures { IfOk result (λ fits. IsTrue fits ↔
            GiveFits None births.now (shown_world self.now) (shown_give give.now)) }
    {
        let Some(process) = self.at(give.pid) else {
            return Ok(false);
        };
        if !is_with(&process.stage, give.worker) {
            return Ok(false);
        }
        match &process.owed {
            Some(request) => self.retry_fits(births, process, give, request),
            None => self.turn_fits(births, process, give),
        }
    }
}
