ghost use Rattle.std.specs.Prelude.{◌≡◌, OnOk};
ghost use Rattle.std.specs.Option.{option_to_list};
ghost use Rattle.world_rules.specs.Views.{deed_of};
ghost use Rattle.world_rules.specs.Rules.{giver_of, happened, next, taken};
ghost use Rattle.plain_world.specs.Shown.{shown_world};

use crate::{PlainStage, PlainWorld};
use memory_refusal::NoMemory;
use world_rules::{Birth, End, Entry};

/// The process that an entry gives back.
fn giver_of(entry: &Entry) -> Option<u64>
    ensures { option_to_list result ≡ giver_of (deed_of entry.now) }
{
    match entry {
        Entry::Give { pid, .. } => Some(*pid),
        Entry::Take { .. } => None,
        Entry::Tick { .. } => None,
        Entry::Stall { .. } => None,
        Entry::Idle { .. } => None,
        Entry::Starve { .. } => None,
    }
}

impl PlainWorld {
    /// The process is then out to the worker.
    fn take(&mut self, worker: u8, pid: u64) -> Result<(), NoMemory>
        ensures { OnOk result (shown_world self.new ≡ taken (shown_world self.old) worker pid) }
    {
        let mut process = self.take_process(pid);
        process.stage = PlainStage::Out(worker);
        self.put_process(pid, process)
    }

    /// What an entry does, but for the ready list and the row.
    fn happen(&mut self, births: &[Birth], entry: &Entry) -> Result<(), NoMemory>
        ensures { OnOk result (shown_world self.new ≡ happened births.now (shown_world self.old) (deed_of entry.now)) }
    {
        match entry {
            Entry::Take { worker, pid } => self.take(*worker, *pid),
            Entry::Give {
                worker: _,
                pid,
                calls,
                fuel,
                halt,
                side,
            } => self.give(births, *pid, calls.as_slice(), *fuel, halt, side),
            Entry::Tick { worker: _, now } => self.tick(*now),
            Entry::Stall { .. } => self.end_all(End::Stalled),
            Entry::Idle { .. } => self.end_all(End::Idle),
            Entry::Starve { .. } => self.end_all(End::NoMemory),
        }
    }

    /// The world after an entry. `NoMemory` comes for want of memory, and where a number has no place: a count past
    /// 2^64, or past 2^32 the address at which a reply writes; then the world is unspecified.
    pub fn advance(&mut self, births: &[Birth], entry: &Entry) -> Result<(), NoMemory>
        ensures { OnOk result (shown_world self.new ≡ next births.now (shown_world self.old) entry.now) }
    {
        let row = self.row_after(entry)?;
        self.happen(births, entry)?;
        self.queue(giver_of(entry))?;
        self.row = row;
        Ok(())
    }
}
