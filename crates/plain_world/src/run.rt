ghost use Rattle.std.specs.Prelude.{◌≡◌, ◌↔◌, IfOk, IsTrue, None};
ghost use Rattle.world_rules.specs.Allowed.{Allowed};
ghost use Rattle.world_rules.specs.Report.{report_text};
ghost use Rattle.world_rules.specs.Told.{told};
ghost use Rattle.plain_world.specs.Shown.{shown_world};
ghost use Rattle.plain_world.specs.Kept.{empty_ends, BeginsSo, AddsBirthTo, TakesAllowed};

use crate::{Exit, PlainWorld, report};
use host_port::Start;
use memory_refusal::NoMemory;
use std::alloc::Global;
use std::marker::Model;
use world_rules::{Birth, Ended, Entry};

/// A run, entry by entry, in which nothing is executed: the memory of each process that ends is empty.
#[derive(Debug, Drop)]
pub struct PlainRun {
    births: Vec<Birth>,
    entries: Vec<Entry>,
    world: PlainWorld,
}

impl Model for PlainRun {
    ghost use Rattle.world_rules.specs.Book.{Book};

    ghost Value = { Book };

    ghost use Rattle.plain_world.specs.Shown.{shown_world};
    ghost use Rattle.plain_world.specs.Kept.{run_of, IsRun};

    ghost view = { λ a. run_of a.births.items a.entries.items (shown_world a.world) };

    ghost invariant = { λ a.
        IsRun (run_of a.births.items a.entries.items (shown_world a.world)) (shown_world a.world) };
}

/// An empty memory for each of these ends.
fn empty_memories(alloc: Global, exits: &[Exit]) -> Result<Vec<Ended>, NoMemory>
    ensures { IfOk result (λ ends. ends.items ≡ empty_ends exits.now) }
{
    let mut ends = Vec::new(alloc);
    for exit in exits {
        ends.push(Ended {
            pid: exit.pid(),
            pages: 0,
            mark: 0,
        })?;
    }
    Ok(ends)
}

impl PlainRun {
    /// The run in which process 1 is ready, with this start, and nothing has happened. `NoMemory` comes for want of
    /// memory alone.
    pub fn new(alloc: Global, start: Start) -> Result<PlainRun, NoMemory>
        requires { start.pid ≡ 1 }
        ensures { IfOk result (λ run. BeginsSo run start) }
    {
        let world = PlainWorld::new(alloc, start.try_clone()?)?;
        let mut births = Vec::new(alloc);
        births.push(Birth::Born(start))?;
        Ok(PlainRun {
            births,
            entries: Vec::new(alloc),
            world,
        })
    }

    /// The run with this birth behind the others, for a spawn to come; what has happened stays. `NoMemory` comes for
    /// want of memory alone; then the run is let go.
    pub fn born(self, birth: Birth) -> Result<PlainRun, NoMemory>
        ensures { IfOk result (λ run. AddsBirthTo self run birth) }
    {
        let PlainRun {
            mut births,
            entries,
            world,
        } = self;
        births.push(birth)?;
        Ok(PlainRun {
            births,
            entries,
            world,
        })
    }

    /// The world that the run tells.
    pub fn world(&self) -> &PlainWorld
        ensures { shown_world result.now ≡ told self.now }
    {
        &self.world
    }

    /// The entry is allowed in the world that the run tells, where nothing is tested against terms. `NoMemory` comes
    /// for want of memory alone.
    pub fn allows(&self, entry: &Entry) -> Result<bool, NoMemory>
        ensures { IfOk result (λ allowed. IsTrue allowed ↔ Allowed None self.now.births (told self.now) entry.now) }
    {
        self.world.allows(self.births.as_slice(), entry)
    }

    /// The run with this entry besides; None exactly where the entry is not allowed. Who ends by it has an empty
    /// memory. `NoMemory` comes where `PlainWorld::advance` answers it; then the run is let go.
    pub fn take(self, entry: Entry) -> Result<Option<PlainRun>, NoMemory>
        ensures { IfOk result (λ run. TakesAllowed self entry run) }
    {
        let PlainRun {
            births,
            mut entries,
            mut world,
        } = self;
        if !world.allows(births.as_slice(), &entry)? {
            return Ok(None);
        }
        world.advance(births.as_slice(), &entry)?;
        entries.push(entry)?;
        Ok(Some(PlainRun {
            births,
            entries,
            world,
        }))
    }

    /// The report of the run. `NoMemory` comes for want of memory alone.
    pub fn report(&self, alloc: Global) -> Result<Vec<u8>, NoMemory>
        ensures { IfOk result (λ text. text.items ≡ report_text self.now) }
    {
        let ends = empty_memories(alloc, self.world.exits.as_slice())?;
        report(
            alloc,
            self.births.as_slice(),
            self.entries.as_slice(),
            ends.as_slice(),
        )
    }
}
