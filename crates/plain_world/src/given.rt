ghost use Rattle.std.specs.Prelude.{◌≡◌, ℕ, OnOk, if◌then◌else◌};
ghost use Rattle.world_rules.specs.Views.{want_of, is_opened};
ghost use Rattle.world_rules.specs.Outside.{opened_and_shut};
ghost use Rattle.world_rules.specs.Ends.{closed_with_first, ended_from_outside};
ghost use Rattle.world_rules.specs.Rules.{given, halted, home, opening_shut, recorded, retried};
ghost use Rattle.plain_world.specs.Gives.{give_of};
ghost use Rattle.plain_world.specs.Shown.{shown_world};

use crate::{PlainStage, PlainWorld};
use host_port::Call;
use memory_refusal::NoMemory;
use world_rules::{Birth, End, Halt, Side};

impl PlainWorld {
    /// The request that is owed is tried again.
    fn retry(&mut self, births: &[Birth], pid: u64, side: &Side) -> Result<(), NoMemory>
        ensures { OnOk result (shown_world self.new ≡
            retried ((shown_world self.old).process pid).owed births.now (shown_world self.old) pid side.now) }
    {
        match self.owed(pid)? {
            Some(request) => self.ask(births, pid, &request, side),
            None => Ok(()),
        }
    }

    /// A bound of the turn leaves the process ready, a request is performed, and every other halt ends the process.
    fn halt(&mut self, births: &[Birth], pid: u64, halt: &Halt, side: &Side) -> Result<(), NoMemory>
        ensures { OnOk result (shown_world self.new ≡
            halted (want_of halt.now) births.now (shown_world self.old) pid side.now) }
    {
        match halt {
            Halt::Slice => Ok(()),
            Halt::Asks(request) => self.ask(births, pid, request, side),
            Halt::Done => self.end_by_halt(pid, End::Done),
            Halt::Trap(trap) => self.end_by_halt(pid, End::Trap(*trap)),
            Halt::Spent(spent) => self.end_by_halt(pid, End::Spent(*spent)),
            Halt::Host(fault, _) => self.end_by_halt(pid, End::Host(*fault)),
            Halt::NoMemory => self.end_by_halt(pid, End::NoMemory),
            Halt::Again => self.retry(births, pid, side),
        }
    }

    /// A process that isn't doomed is given back: what is always recorded comes first, then its halt is performed.
    fn give_out(
        &mut self,
        births: &[Birth],
        pid: u64,
        calls: &[Call],
        fuel: u64,
        halt: &Halt,
        side: &Side,
    ) -> Result<(), NoMemory>
        ensures { OnOk result ((worker : ℕ) →
            shown_world self.new ≡ halted (want_of halt.now) births.now
            (home (recorded (shown_world self.old)
            (give_of worker pid calls.now fuel halt.now side.now)) pid) pid side.now) }
    {
        self.record(pid, calls, fuel, halt, side)?;
        self.come_home(pid)?;
        self.halt(births, pid, halt, side)
    }

    /// A stream that was opened for a doomed process is closed.
    fn shut_opening(&mut self, pid: u64, side: &Side) -> Result<(), NoMemory>
        ensures { OnOk result (shown_world self.new ≡
            (if is_opened side.now then opened_and_shut (shown_world self.old) pid else shown_world self.old)) }
    {
        if let Side::Opened = side {
            return self.open_and_shut(pid);
        }
        Ok(())
    }

    /// A doomed process is given back: its halt isn't performed, and it has the end that it was doomed to.
    fn give_doomed(
        &mut self,
        end: End,
        pid: u64,
        calls: &[Call],
        fuel: u64,
        halt: &Halt,
        side: &Side,
    ) -> Result<(), NoMemory>
        ensures { OnOk result ((worker : ℕ) →
            shown_world self.new ≡ closed_with_first (ended_from_outside (opening_shut
            (recorded (shown_world self.old) (give_of worker pid calls.now fuel halt.now side.now))
            (give_of worker pid calls.now fuel halt.now side.now)) pid end)) }
    {
        self.record(pid, calls, fuel, halt, side)?;
        self.shut_opening(pid, side)?;
        self.end_from_outside(pid, end)?;
        self.close_with_first()
    }

    /// A process is given back.
    pub(crate) fn give(
        &mut self,
        births: &[Birth],
        pid: u64,
        calls: &[Call],
        fuel: u64,
        halt: &Halt,
        side: &Side,
    ) -> Result<(), NoMemory>
        ensures { OnOk result ((worker : ℕ) →
            shown_world self.new ≡ given ((shown_world self.old).process pid).stage births.now (shown_world self.old)
            (give_of worker pid calls.now fuel halt.now side.now)) }
    {
        let Some(process) = self.at(pid) else {
            return Ok(());
        };
        match process.stage {
            PlainStage::Unborn => Ok(()),
            PlainStage::Ready => Ok(()),
            PlainStage::Out(_) => self.give_out(births, pid, calls, fuel, halt, side),
            PlainStage::Waiting(_) => Ok(()),
            PlainStage::Doomed(_, end) => self.give_doomed(end, pid, calls, fuel, halt, side),
            PlainStage::Ended(_) => Ok(()),
        }
    }
}
