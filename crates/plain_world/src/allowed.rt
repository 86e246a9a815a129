ghost use Rattle.std.specs.Prelude.{◌≡◌, ◌↔◌, ◌<◌, ℕ, None, Some, IfOk, IsTrue, length, slice_get, false};
ghost use Rattle.world_rules.specs.World.{is_away};
ghost use Rattle.world_rules.specs.Time.{has_deadline, timed_processes};
ghost use Rattle.world_rules.specs.Allowed.{Allowed, IsStuck};
ghost use Rattle.plain_world.specs.Stage.{shown_stage};
ghost use Rattle.plain_world.specs.Shown.{shown_world};

use crate::{PlainGive, PlainStage, PlainWorld};
use memory_refusal::NoMemory;
use world_rules::{Birth, Entry};

/// A worker has the process.
fn is_away(stage: &PlainStage) -> bool
    ensures { result ≡ is_away (shown_stage stage.now) }
{
    matches!(stage, PlainStage::Out(_) | PlainStage::Doomed(_, _))
}

impl PlainWorld {
    /// The process of this number waits with a deadline.
    fn has_deadline(&self, pid: u64) -> bool
        ensures { result ≡ has_deadline ((shown_world self.now).process pid) }
    {
        match self.at(pid) {
            Some(process) => {
                matches!(process.stage, PlainStage::Waiting(_)) && process.deadline.is_some()
            }
            None => false,
        }
    }

    /// Those who wait with a deadline, by rising number.
    fn timed(&self) -> Result<Vec<u64>, NoMemory>
        ensures { IfOk result (λ timed. timed.items ≡ timed_processes (shown_world self.now)) }
    {
        let unended = self.unended()?;
        let mut timed = Vec::new(self.alloc());
        for pid in &unended {
            if self.has_deadline(*pid) {
                timed.push(*pid)?;
            }
        }
        Ok(timed)
    }

    /// Somebody waits with a deadline.
    fn has_timed(&self) -> Result<bool, NoMemory>
        ensures { IfOk result (λ timed. IsTrue timed ↔ (0 < length (timed_processes (shown_world self.now)))) }
    {
        let timed = self.timed()?;
        Ok(!timed.is_empty())
    }

    /// No worker has the process of this number.
    fn is_home_or_none(&self, pid: u64) -> bool
        ensures { IsTrue result ↔ (is_away ((shown_world self.now).process pid).stage ≡ false) }
    {
        match self.at(pid) {
            Some(process) => !is_away(&process.stage),
            None => true,
        }
    }

    /// No worker has a process.
    fn is_nobody_away(&self) -> bool
        ensures { IsTrue result ↔ ((pid : ℕ) → is_away ((shown_world self.now).process pid).stage ≡ false) }
    {
        for pid in self.processes.watched() {
            if !self.is_home_or_none(*pid) {
                return false;
            }
        }
        true
    }

    /// Nothing is ready, out or doomed, and nobody waits with a deadline.
    fn is_stuck(&self) -> Result<bool, NoMemory>
        ensures { IfOk result (λ stuck. IsTrue stuck ↔ IsStuck (shown_world self.now)) }
    {
        let timed = self.has_timed()?;
        Ok(self.ready().is_empty() && self.is_nobody_away() && !timed)
    }

    /// The run goes on, and somebody waits with a deadline.
    fn allows_tick(&self) -> Result<bool, NoMemory>
        ensures { IfOk result (λ allowed. IsTrue allowed ↔
            (((shown_world self.now).over ≡ false) × (0 < length (timed_processes (shown_world self.now))))) }
    {
        let timed = self.has_timed()?;
        Ok(!self.over && timed)
    }

    /// The run goes on, and nothing can happen any more.
    fn allows_stall(&self) -> Result<bool, NoMemory>
        ensures { IfOk result (λ allowed. IsTrue allowed ↔
            (((shown_world self.now).over ≡ false) × IsStuck (shown_world self.now))) }
    {
        let stuck = self.is_stuck()?;
        Ok(!self.over && stuck)
    }

    /// The run goes on, and this process is at the front of the ready list.
    fn allows_take(&self, pid: u64) -> bool
        ensures { IsTrue result ↔
            (((shown_world self.now).over ≡ false) × (slice_get (shown_world self.now).ready 0 ≡ Some pid)) }
    {
        !self.over && self.ready().first() == Some(&pid)
    }

    /// The entry is allowed in this world, where nothing is tested against terms. `NoMemory` comes for want of memory
    /// alone, since the calls of a turn are answered on a copy.
    pub fn allows(&self, births: &[Birth], entry: &Entry) -> Result<bool, NoMemory>
        ensures { IfOk result (λ allowed. IsTrue allowed ↔ Allowed None births.now (shown_world self.now) entry.now) }
    {
        match entry {
            Entry::Take { pid, .. } => Ok(self.allows_take(*pid)),
            Entry::Give {
                worker,
                pid,
                calls,
                fuel,
                halt,
                side,
            } => self.give_fits(
                births,
                &PlainGive {
                    worker: *worker,
                    pid: *pid,
                    calls: calls.as_slice(),
                    fuel: *fuel,
                    halt,
                    side,
                },
            ),
            Entry::Tick { .. } => self.allows_tick(),
            Entry::Stall { .. } => self.allows_stall(),
            Entry::Idle { .. } | Entry::Starve { .. } => Ok(!self.over),
        }
    }
}
