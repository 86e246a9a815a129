ghost use Rattle.std.specs.Prelude.{
  ◌≡◌,
  ◌&&◌,
  ◌||◌,
  ◌++◌,
  ◌∷◌,
  [],
  ℕ,
  nat_eq,
  nat_lt,
  nat_le,
  true,
  false,
  MatchOption,
  IfOk,
  OnOk,
  OnErr,
  filter,
};
ghost use Rattle.std.specs.Option.{option_to_list};
ghost use Rattle.world_rules.specs.Part.{is_among};
ghost use Rattle.world_rules.specs.Touches.{is_there};
ghost use Rattle.world_rules.specs.World.{is_ready, put, up_to};
ghost use Rattle.plain_world.specs.Stage.{shown_stage};
ghost use Rattle.plain_world.specs.Population.{is_made_ready, made_ready, ready_in, ready_after};
ghost use Rattle.plain_world.specs.ShownProcess.{nobody, process_in, shown_process};

use crate::processes::{put_at, take_at};
use crate::{Numbers, PlainProcess, PlainStage};
use memory_refusal::NoMemory;
use plain_part::is_among;
use std::alloc::Global;
use std::marker::Model;

/// The processes and the ready list, with the numbers of those that an entry has to look at.
#[derive(Debug, Drop)]
pub struct Population {
    /// The ready list, the front first.
    ready: Vec<u64>,
    /// The process of each number, from 0 on; past the last one nobody was born.
    list: Vec<PlainProcess>,
    /// The numbers of those that were born and have not ended.
    unended: Numbers,
    /// The numbers of those that were put in as ready since the ready list was made.
    woken: Numbers,
}

impl Model for Population {
    ghost use Rattle.plain_world.specs.Population as kept;

    ghost Value = { kept.Population };

    ghost use Rattle.plain_world.specs.ShownProcess.{process_in};
    ghost use Rattle.plain_world.specs.Population.{AreWatched};

    ghost view = { λ a. record { ready = a.ready.items; list = a.list.items } };

    ghost invariant = { λ a. AreWatched a.ready.items (process_in a.list.items) a.unended a.woken };
}

/// A process with this stage was born and has not ended.
fn is_there(stage: &PlainStage) -> bool
    ensures { result ≡ is_there (shown_stage stage.now) }
{
    matches!(
        stage,
        PlainStage::Ready | PlainStage::Out(_) | PlainStage::Waiting(_) | PlainStage::Doomed(_, _)
    )
}

/// A process with this stage is ready.
fn is_ready(stage: &PlainStage) -> bool
    ensures { result ≡ is_ready (shown_stage stage.now) }
{
    matches!(stage, PlainStage::Ready)
}

/// The process of this number is ready.
fn is_ready_at(list: &[PlainProcess], pid: u64) -> bool
    ensures { result ≡ is_ready (process_in list.now pid).stage }
{
    match list.get(pid as usize) {
        Some(process) => is_ready(&process.stage),
        None => false,
    }
}

/// A number that was drawn.
pub(crate) fn is_drawn(drawn: u64, pid: u64) -> bool
    ensures { result ≡ (nat_lt 0 pid && nat_le pid drawn) }
{
    0 < pid && pid <= drawn
}

/// Leaves those that are ready.
fn keep_ready(ready: &mut Vec<u64>, list: &[PlainProcess])
    ensures { ready.new.items ≡ filter (λ pid. is_ready (process_in list.now pid).stage) ready.old.items }
{
    ready.retain(|pid| is_ready_at(list, *pid));
}

/// One number more, where it is to be added.
fn add_if(numbers: &mut Numbers, pid: u64, yes: bool) -> Result<(), NoMemory>
    ensures added { OnOk result ((other : ℕ) →
        is_among numbers.new other ≡ ((yes && nat_eq other pid) || is_among numbers.old other)) }
    ensures same { OnErr result (numbers.new ≡ numbers.old) }
{
    if yes {
        return numbers.add(pid);
    }
    Ok(())
}

/// A number less, where it is to go.
fn remove_if(numbers: &mut Numbers, pid: u64, yes: bool)
    ensures { (other : ℕ) → is_among numbers.old other ≡ true → (yes && nat_eq other pid) ≡ false →
        is_among numbers.new other ≡ true }
{
    if yes {
        numbers.remove(pid);
    }
}

/// The number is in the list, or is the last one.
fn is_known(ready: &[u64], last: Option<u64>, pid: u64) -> bool
    ensures { result ≡ is_among (ready.now ++ option_to_list last) pid }
{
    last == Some(pid) || is_among(ready, pid)
}

/// Puts a number behind the others, if there is one.
fn push_last(ready: &mut Vec<u64>, last: Option<u64>) -> Result<(), NoMemory>
    ensures pushed { OnOk result (ready.new.items ≡ ready.old.items ++ option_to_list last) }
    ensures same { OnErr result (ready.new.items ≡ ready.old.items) }
{
    if let Some(pid) = last {
        ready.push(pid)?;
    }
    Ok(())
}

impl Population {
    /// Process 1 alone.
    pub(crate) fn new(alloc: Global, first: PlainProcess) -> Result<Population, NoMemory>
        ensures ready { IfOk result (λ all. all.ready ≡ 1 ∷ []) }
        ensures first { IfOk result (λ all. process_in all.list ≡ put (λ pid. nobody) 1 (shown_process first)) }
    {
        let mut all = Population {
            ready: Vec::new(alloc),
            list: Vec::new(alloc),
            unended: Numbers::new(alloc),
            woken: Numbers::new(alloc),
        };
        all.put(alloc, 1, first)?;
        all.ready.push(1)?;
        Ok(all)
    }

    /// The ready list, the front first.
    pub fn ready(&self) -> &[u64]
        ensures { result.now ≡ self.now.ready }
    {
        self.ready.as_slice()
    }

    /// The process of this number, if anybody was born with it.
    pub fn get(&self, pid: u64) -> Option<&PlainProcess>
        ensures { MatchOption result (process_in self.now.list pid ≡ nobody)
            (λ process. process_in self.now.list pid ≡ shown_process process.now) }
    {
        self.list.get(pid as usize)
    }

    /// Takes the process of this number out; then nobody has the number.
    pub(crate) fn take(&mut self, alloc: Global, pid: u64) -> PlainProcess
        ensures taken { shown_process result ≡ process_in self.old.list pid }
        ensures left { process_in self.new.list ≡ put (process_in self.old.list) pid nobody }
        ensures ready { self.new.ready ≡ self.old.ready }
    {
        take_at(alloc, &mut self.list, pid)
    }

    /// Puts a process in the place of this number.
    pub(crate) fn put(
        &mut self,
        alloc: Global,
        pid: u64,
        process: PlainProcess,
    ) -> Result<(), NoMemory>
        ensures put_in { OnOk result (process_in self.new.list ≡
            put (process_in self.old.list) pid (shown_process process)) }
        ensures ready { OnOk result (self.new.ready ≡ self.old.ready) }
    {
        let there = is_there(&process.stage);
        add_if(&mut self.unended, pid, there)?;
        add_if(&mut self.woken, pid, is_ready(&process.stage))?;
        put_at(alloc, &mut self.list, pid, process)?;
        remove_if(&mut self.unended, pid, !there);
        Ok(())
    }

    /// Numbers among which each is whose process was born and has not ended.
    pub(crate) fn watched(&self) -> &[u64]
        ensures { (pid : ℕ) → is_there (process_in self.now.list pid).stage ≡ true → is_among result.now pid ≡ true }
    {
        self.unended.as_slice()
    }

    /// The process of this number was born and has not ended.
    fn is_there_at(&self, pid: u64) -> bool
        ensures { result ≡ is_there (process_in self.now.list pid).stage }
    {
        match self.get(pid) {
            Some(process) => is_there(&process.stage),
            None => false,
        }
    }

    /// Of so many processes those that have not ended, by rising number.
    pub(crate) fn unended(&self, alloc: Global, drawn: u64) -> Result<Vec<u64>, NoMemory>
        ensures { IfOk result (λ pids. pids.items ≡
            filter (λ pid. is_there (process_in self.now.list pid).stage) (up_to drawn)) }
    {
        let mut pids = Vec::new(alloc);
        for pid in self.unended.as_slice() {
            if is_drawn(drawn, *pid) && self.is_there_at(*pid) {
                pids.push(*pid)?;
            }
        }
        Ok(pids)
    }

    /// The process is ready, and neither in the ready list nor the giver.
    fn is_made_ready(&self, giver: Option<u64>, pid: u64) -> bool
        ensures { result ≡ is_made_ready self.now (option_to_list giver) pid }
    {
        is_ready_at(&self.list, pid) && !is_known(&self.ready, giver, pid)
    }

    /// Of so many processes those that were made ready, by rising number.
    fn made_ready(
        &self,
        alloc: Global,
        giver: Option<u64>,
        drawn: u64,
    ) -> Result<Vec<u64>, NoMemory>
        ensures { IfOk result (λ pids. pids.items ≡ made_ready self.now (option_to_list giver) drawn) }
    {
        let mut pids = Vec::new(alloc);
        for pid in self.woken.as_slice() {
            if is_drawn(drawn, *pid) && self.is_made_ready(giver, *pid) {
                pids.push(*pid)?;
            }
        }
        Ok(pids)
    }

    /// The giver, if it is ready.
    fn last_ready(&self, giver: Option<u64>) -> Option<u64>
        ensures { option_to_list result ≡ ready_in self.now (option_to_list giver) }
    {
        match giver {
            Some(pid) => {
                if is_ready_at(&self.list, pid) {
                    Some(pid)
                } else {
                    None
                }
            }
            None => None,
        }
    }

    /// Makes the ready list anew: those that are still ready keep their order; behind them come those of so many
    /// processes that were made ready, by rising number; the giver comes last.
    pub(crate) fn queue(
        &mut self,
        alloc: Global,
        giver: Option<u64>,
        drawn: u64,
    ) -> Result<(), NoMemory>
        ensures ready { OnOk result (self.new.ready ≡ ready_after self.old (option_to_list giver) drawn) }
        ensures list { OnOk result (self.new.list ≡ self.old.list) }
    {
        let others = self.made_ready(alloc, giver, drawn)?;
        let last = self.last_ready(giver);
        keep_ready(&mut self.ready, &self.list);
        self.ready.extend_from_slice(&others)?;
        push_last(&mut self.ready, last)?;
        self.woken.forget(drawn);
        Ok(())
    }
}
