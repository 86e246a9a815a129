ghost use Rattle.std.specs.Prelude.{◌≡◌, ◌++◌, drop, length, slice_get, OnOk, IfOk};
ghost use Rattle.std.specs.Option.{option_copied};
ghost use Rattle.world_rules.specs.Report.{end_lines, report_text, printed, local_calls, IsReportable};
ghost use Rattle.world_rules.specs.Views.{deed_of};
ghost use Rattle.world_rules.specs.World.{first_start, no_start};
ghost use Rattle.plain_world.specs.Shown.{shown_world};
ghost use Rattle.plain_world.specs.Journal.{book_of};

use crate::report_lines::{push_end_line, push_printed, push_total};
use crate::{Exit, PlainWorld};
use host_port::{Bytes, Limits, Params, Start};
use memory_refusal::NoMemory;
use std::alloc::Global;
use world_rules::{Birth, Ended, Entry};

/// What the local calls of an entry printed.
fn push_output(text: &mut Vec<u8>, entry: &Entry) -> Result<(), NoMemory>
    ensures { OnOk result (text.new.items ≡ text.old.items ++ printed (local_calls (deed_of entry.now))) }
{
    match entry {
        Entry::Give { calls, .. } => push_printed(text, calls.as_slice()),
        Entry::Take { .. }
        | Entry::Tick { .. }
        | Entry::Stall { .. }
        | Entry::Idle { .. }
        | Entry::Starve { .. } => Ok(()),
    }
}

/// The start of process 1, which the first birth tells.
fn first_start(alloc: Global, births: &[Birth]) -> Result<Start, NoMemory>
    ensures { IfOk result (λ start. start ≡ first_start births.now) }
{
    match births.first() {
        Some(Birth::Born(start)) => start.try_clone(),
        Some(Birth::Refused(_)) | None => Ok(no_start(alloc)),
    }
}

/// The start of no process.
fn no_start(alloc: Global) -> Start
    ensures { result ≡ no_start }
{
    Start {
        pid: 0,
        module: 0,
        entry: Bytes::new(alloc),
        params: Params::new(alloc),
        limits: Limits::new(0, 0, 0),
    }
}

/// The end at this place, if there is one.
fn exit_at(exits: &[Exit], place: usize) -> Option<&Exit>
    ensures { option_copied result ≡ slice_get exits.now place }
{
    exits.get(place)
}

/// The memory at this place, if there is one.
fn memory_at(ends: &[Ended], place: usize) -> Option<&Ended>
    ensures { option_copied result ≡ slice_get ends.now place }
{
    ends.get(place)
}

impl PlainWorld {
    /// How many processes have ended.
    fn end_count(&self) -> usize
        ensures { result ≡ length (shown_world self.now).exits }
    {
        self.exits.len()
    }

    /// The fuel that the process of this number had burnt at its last Give.
    fn fuel_of(&self, pid: u64) -> u64
        ensures { result ≡ ((shown_world self.now).process pid).fuel }
    {
        match self.at(pid) {
            Some(process) => process.fuel,
            None => 0,
        }
    }

    /// The end lines of the ends from a place on, whose memories stand at the same places.
    fn push_ends(&self, text: &mut Vec<u8>, told: usize, ends: &[Ended]) -> Result<(), NoMemory>
        ensures { OnOk result (text.new.items ≡ text.old.items ++
            end_lines (shown_world self.now).process (drop told (shown_world self.now).exits) (drop told ends.now)) }
    {
        for place in told..self.exits.len() {
            let Some(exit) = exit_at(self.exits.as_slice(), place) else {
                return Ok(());
            };
            let Some(memory) = memory_at(ends, place) else {
                return Ok(());
            };
            push_end_line(
                text,
                exit.pid(),
                exit.end(),
                self.fuel_of(exit.pid()),
                memory,
            )?;
        }
        Ok(())
    }
}

/// The report of a journal that tells a world and whose list of ends is that world's: entry by entry what its calls
/// printed and the lines of its ends, and then the total line. `NoMemory` comes for want of memory alone.
pub fn report(
    alloc: Global,
    births: &[Birth],
    entries: &[Entry],
    ends: &[Ended],
) -> Result<Vec<u8>, NoMemory>
    requires { IsReportable (book_of births.now entries.now ends.now) }
    ensures { IfOk result (λ text. text.items ≡ report_text (book_of births.now entries.now ends.now)) }
{
    let mut world = PlainWorld::new(alloc, first_start(alloc, births)?)?;
    let mut text = Vec::new(alloc);
    for entry in entries {
        let told = world.end_count();
        world.advance(births, entry)?;
        push_output(&mut text, entry)?;
        world.push_ends(&mut text, told, ends)?;
    }
    push_total(&mut text, world.numbers_drawn, world.sends, world.streams)?;
    Ok(text)
}
