ghost use Rattle.std.specs.Prelude.{◌≡◌, ◌+◌, OnOk, IfOk, option_copied, slice_get, Some};
ghost use Rattle.world_rules.specs.Spawn.{next_birth, next_number, born, spawn_counted, spawned, spawn_performed};
ghost use Rattle.world_rules.specs.declared.life.Birth.TheVariants.{Born};
ghost use Rattle.world_rules.specs.Changes.{replied};
ghost use Rattle.world_rules.specs.Answers.{number_reply};
ghost use Rattle.plain_world.specs.Shown.{shown_world};

use crate::replies::{number_reply, written_reply};
use crate::{PlainProcess, PlainStage, PlainWorld};
use host_port::{Request, Start};
use memory_refusal::NoMemory;
use world_rules::Birth;

/// The birth at this place, if there is one.
fn birth_at(births: &[Birth], place: u64) -> Option<&Birth>
    ensures { option_copied result ≡ slice_get births.now place }
{
    births.get(place as usize)
}

impl PlainWorld {
    /// The birth of the next spawn, if the journal has one.
    pub(crate) fn next_birth<'a>(&self, births: &'a [Birth]) -> Option<&'a Birth>
        ensures { option_copied result ≡ next_birth births.now (shown_world self.now) }
    {
        let place = self.spawns.checked_add(1)?;
        birth_at(births, place)
    }

    /// The number of the next child.
    fn next_number(&self) -> Result<u64, NoMemory>
        ensures { IfOk result (λ number. number ≡ next_number (shown_world self.now)) }
    {
        self.numbers_drawn.checked_add(1).ok_or(NoMemory)
    }

    /// The child has the next number, is ready, and is linked with its parent where the request asks for a link.
    fn bear(&mut self, pid: u64, request: &Request, start: &Start) -> Result<(), NoMemory>
        ensures { OnOk result (shown_world self.new ≡ born (shown_world self.old) pid request.now start.now) }
    {
        let child = self.next_number()?;
        let process = PlainProcess::fresh(self.alloc(), start.try_clone()?, PlainStage::Ready);
        self.put_process(child, process)?;
        self.numbers_drawn = child;
        let tag = request.ask.args[0];
        if tag == 0 {
            return Ok(());
        }
        self.set_link(pid, child, Some(tag))
    }

    /// One spawn more was performed.
    fn count_spawn(&mut self) -> Result<(), NoMemory>
        ensures { OnOk result (shown_world self.new ≡ spawn_counted (shown_world self.old)) }
    {
        self.spawns = self.spawns.checked_add(1).ok_or(NoMemory)?;
        Ok(())
    }

    /// A spawn with this birth: the child is born, and its number written.
    fn spawn_born(&mut self, pid: u64, request: &Request, start: &Start) -> Result<(), NoMemory>
        ensures { OnOk result (shown_world self.new ≡
            spawned (Some (Born start.now)) (shown_world self.old) pid request.now) }
    {
        let child = self.next_number()?;
        let reply = written_reply(0, request.ask.args[7], child)?;
        self.count_spawn()?;
        self.bear(pid, request, start)?;
        self.reply(pid, request, reply)
    }

    /// A spawn without a child gets this number.
    fn spawn_nobody(&mut self, pid: u64, request: &Request, answer: u64) -> Result<(), NoMemory>
        ensures { OnOk result (shown_world self.new ≡
            replied (spawn_counted (shown_world self.old)) pid request.now (number_reply answer)) }
    {
        self.count_spawn()?;
        self.reply(pid, request, number_reply(answer))
    }

    /// Spawn: a birth answers 0, with the child's number at `id`; a refusal answers its number; without a birth memory
    /// is lacking.
    pub(crate) fn spawn(
        &mut self,
        births: &[Birth],
        pid: u64,
        request: &Request,
    ) -> Result<(), NoMemory>
        ensures { OnOk result (shown_world self.new ≡
            spawn_performed births.now (shown_world self.old) pid request.now) }
    {
        match self.next_birth(births) {
            None => self.spawn_nobody(pid, request, 12),
            Some(Birth::Born(start)) => self.spawn_born(pid, request, start),
            Some(Birth::Refused(reply)) => self.spawn_nobody(pid, request, *reply),
        }
    }
}
