ghost use Rattle.std.specs.Prelude.{◌≡◌, ◌+◌, IfOk, OnOk};
ghost use Rattle.std.specs.Option.{option_to_list};
ghost use Rattle.world_rules.specs.Rules.{is_pending_give, row_with, row_after, queued};
ghost use Rattle.world_rules.specs.Views.{deed_of};
ghost use Rattle.plain_world.specs.Shown.{shown_world};

use crate::{PlainStage, PlainWorld};
use memory_refusal::NoMemory;
use world_rules::{Entry, Side};

/// The next number. NoMemory comes where it would pass 2^64.
fn one_more(number: u64) -> Result<u64, NoMemory>
    ensures { IfOk result (λ next. next ≡ number + 1) }
{
    number.checked_add(1).ok_or(NoMemory)
}

/// One more in the row, or the row is broken. NoMemory comes where the number would pass 2^64.
fn row_with(goes_on: bool, row: u64) -> Result<u64, NoMemory>
    ensures { IfOk result (λ next. next ≡ row_with goes_on row) }
{
    if goes_on {
        return one_more(row);
    }
    Ok(0)
}

impl PlainWorld {
    /// A give of a process that is out, whose request can't be answered yet.
    fn is_pending_give(&self, pid: u64, side: &Side) -> bool
        ensures { result ≡ is_pending_give ((shown_world self.now).process pid).stage side.now }
    {
        match self.at(pid) {
            Some(process) => {
                matches!(process.stage, PlainStage::Out(_)) && matches!(side, Side::Pending)
            }
            None => false,
        }
    }

    /// How many Pending gives and early Ticks the last entries are, after this one, Takes left aside.
    pub(crate) fn row_after(&self, entry: &Entry) -> Result<u64, NoMemory>
        ensures { IfOk result (λ row. row ≡ row_after (shown_world self.now) (deed_of entry.now)) }
    {
        match entry {
            Entry::Take { .. } => Ok(self.row),
            Entry::Give { pid, side, .. } => row_with(self.is_pending_give(*pid, side), self.row),
            Entry::Tick { now, .. } => row_with(self.is_early(*now)?, self.row),
            Entry::Stall { .. } => Ok(0),
            Entry::Idle { .. } => Ok(0),
            Entry::Starve { .. } => Ok(0),
        }
    }

    /// Those of the earlier ready list that are still ready keep their order; behind them come those that were made
    /// ready, by rising number; the giver comes last.
    pub(crate) fn queue(&mut self, giver: Option<u64>) -> Result<(), NoMemory>
        ensures { OnOk result (shown_world self.new ≡
            queued (shown_world self.old).ready (option_to_list giver) (shown_world self.old)) }
    {
        let alloc = self.alloc();
        self.processes.queue(alloc, giver, self.numbers_drawn)
    }
}
