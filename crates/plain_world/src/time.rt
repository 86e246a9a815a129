ghost use Rattle.std.specs.Prelude.{◌≡◌, ℕ, IfOk, OnOk, length, nat_eq, filter};
ghost use Rattle.world_rules.specs.Time.{
  at_time,
  clocked,
  is_positive,
  deadline_after,
  sleep_performed,
  late_reply,
  is_due,
  due_processes,
  timed_out,
  all_timed_out,
  ticked,
};
ghost use Rattle.world_rules.specs.World.{up_to};
ghost use Rattle.world_rules.specs.Rules.{is_early};
ghost use Rattle.world_rules.specs.Calls.{call_of};
ghost use Rattle.plain_world.specs.Awaited.{request_in};
ghost use Rattle.plain_world.specs.Shown.{shown_world};

use crate::replies::{empty_reply, number_reply};
use crate::{PlainStage, PlainWorld};
use host_port::{Reply, Request};
use memory_refusal::NoMemory;
use plain_part::{HostCall, call_of};
use world_rules::Side;

/// A limit of milliseconds is positive, as an i64.
pub(crate) fn is_positive(ms: u64) -> bool
    ensures { result ≡ is_positive ms }
{
    0 < ms && ms < 0x8000_0000_0000_0000
}

/// What a wait is answered when its deadline has come.
fn late_reply(request: &Request) -> Reply
    ensures { result ≡ late_reply (call_of request.now) }
{
    match call_of(request) {
        Some(HostCall::Receive) => number_reply(9027),
        _ => empty_reply(),
    }
}

impl PlainWorld {
    /// The time is at least this; it never goes back.
    pub(crate) fn set_time(&mut self, now: u64)
        ensures { shown_world self.new ≡ at_time now (shown_world self.old) }
    {
        self.time = self.time.max(now);
    }

    /// A Clock that comes beside a call sets the time.
    pub(crate) fn set_clock(&mut self, side: &Side)
        ensures { shown_world self.new ≡ clocked side.now (shown_world self.old) }
    {
        if let Side::Clock(now) = side {
            self.set_time(*now);
        }
    }

    /// The deadline of a wait of so many milliseconds that begins now.
    pub(crate) fn deadline_after(&self, ms: u64) -> u64
        ensures { result ≡ deadline_after (shown_world self.now) ms }
    {
        self.time.saturating_add(ms)
    }

    /// Sleep: a positive number of milliseconds waits up to the deadline; any other is answered at once.
    pub(crate) fn sleep(&mut self, pid: u64, request: &Request) -> Result<(), NoMemory>
        ensures { OnOk result (shown_world self.new ≡ sleep_performed (shown_world self.old) pid request.now) }
    {
        let ms = request.ask.args[0];
        if is_positive(ms) {
            let deadline = self.deadline_after(ms);
            return self.wait(pid, request, Some(deadline));
        }
        self.reply(pid, request, empty_reply())
    }

    /// The process waits with a deadline that has come at this time.
    fn is_due(&self, time: u64, pid: u64) -> bool
        ensures { result ≡ is_due time ((shown_world self.now).process pid) }
    {
        let Some(process) = self.at(pid) else {
            return false;
        };
        let PlainStage::Waiting(_) = process.stage else {
            return false;
        };
        match process.deadline {
            Some(deadline) => deadline <= time,
            None => false,
        }
    }

    /// The processes whose deadline has come at this time, by rising number.
    fn due_at(&self, time: u64) -> Result<Vec<u64>, NoMemory>
        ensures { IfOk result (λ due. due.items ≡
            filter (λ (pid : ℕ). is_due time ((shown_world self.now).process pid)) (up_to self.now.numbers_drawn)) }
    {
        let mut due = Vec::new(self.alloc());
        let unended = self.unended()?;
        for pid in &unended {
            if self.is_due(time, *pid) {
                due.push(*pid)?;
            }
        }
        Ok(due)
    }

    /// A Tick that sets this time is early: it answers nobody.
    pub(crate) fn is_early(&self, now: u64) -> Result<bool, NoMemory>
        ensures { IfOk result (λ early. early ≡ is_early (shown_world self.now) now) }
    {
        let due = self.due_at(self.time.max(now))?;
        Ok(due.is_empty())
    }

    /// The request whose answer the process waits for.
    fn awaited(&self, pid: u64) -> Result<Option<Request>, NoMemory>
        ensures { IfOk result (λ found. found ≡ request_in ((shown_world self.now).process pid).stage) }
    {
        let Some(process) = self.at(pid) else {
            return Ok(None);
        };
        match &process.stage {
            PlainStage::Waiting(request) => Ok(Some(request.try_clone()?)),
            _ => Ok(None),
        }
    }

    /// The wait of the process is over without what it waited for.
    fn time_out(&mut self, pid: u64) -> Result<(), NoMemory>
        ensures { OnOk result (shown_world self.new ≡
            timed_out ((shown_world self.old).process pid).stage (shown_world self.old) pid) }
    {
        let Some(request) = self.awaited(pid)? else {
            return Ok(());
        };
        self.reply(pid, &request, late_reply(&request))
    }

    /// The waits of these processes are over, one after another.
    fn time_out_all(&mut self, pids: &[u64]) -> Result<(), NoMemory>
        ensures { OnOk result (shown_world self.new ≡ all_timed_out (shown_world self.old) pids.now) }
    {
        for pid in pids {
            self.time_out(*pid)?;
        }
        Ok(())
    }

    /// Tick: the time is set, and every wait whose deadline is at most the time is answered.
    pub(crate) fn tick(&mut self, now: u64) -> Result<(), NoMemory>
        ensures { OnOk result (shown_world self.new ≡ ticked (shown_world self.old) now) }
    {
        self.set_time(now);
        let due = self.due_at(self.time)?;
        self.time_out_all(due.as_slice())
    }
}
