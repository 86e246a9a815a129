ghost use Rattle.std.specs.Prelude.{◌≡◌, OnOk, IfOk, MatchOption, [], ◌∷◌};
ghost use Rattle.world_rules.specs.declared.life.Birth.TheVariants.{Born};
ghost use Rattle.world_rules.specs.World.{
  first_world,
  with_process,
  with_moves,
  with_closed,
  is_live,
  is_home,
  live_processes,
  processes_at,
  link_between,
};
ghost use Rattle.world_rules.specs.Touches.{is_there};
ghost use Rattle.world_rules.specs.Links.{with_link};
ghost use Rattle.world_rules.specs.Registry.{with_name};
ghost use Rattle.plain_world.specs.Move.{shown_move};
ghost use Rattle.plain_world.specs.ShownProcess.{nobody, shown_process};
ghost use Rattle.plain_world.specs.Shown.{shown_world};

use crate::link_list::{set_tag, tag_between};
use crate::name_list::{named, set_named};
use crate::{Exit, Move, PlainMove, PlainProcess, PlainStage, Population, Streamed};
use host_port::{Bytes, Start};
use memory_refusal::NoMemory;
use std::alloc::Global;

/// The link of two processes.
#[derive(Clone, Copy, Debug)]
pub struct PlainLink {
    /// The lesser number.
    pub low: u64,
    /// The greater number.
    pub high: u64,
    /// The tag.
    pub tag: u64,
}

/// What a name names, or that it names nobody any more.
#[derive(Debug, Drop)]
pub struct PlainName {
    /// The name.
    pub text: Bytes,
    /// The process, if it names one.
    pub pid: Option<u64>,
}

/// The state of a whole run, kept plainly.
#[derive(Debug, Drop)]
pub struct PlainWorld {
    /// The ready list, and the process of each number.
    pub processes: Population,
    /// The links; of two processes the first entry counts.
    pub links: Vec<PlainLink>,
    /// The names; of one name the first entry counts.
    pub names: Vec<PlainName>,
    /// How many process numbers were drawn.
    pub numbers_drawn: u64,
    /// How many stream numbers were drawn.
    pub streams: u64,
    /// How many spawns were performed.
    pub spawns: u64,
    /// How many sends were answered 0.
    pub sends: u64,
    /// The time in milliseconds.
    pub time: u64,
    /// How many Pending gives and early Ticks the last entries are, in a row.
    pub row: u64,
    /// The run is over.
    pub over: bool,
    /// What was streamed on each stream, from 0 on; past the last one nothing was.
    pub streamed: Vec<Streamed>,
    /// The streams that were closed, in order.
    pub closed: Vec<u64>,
    /// The ends, in order.
    pub exits: Vec<Exit>,
    /// The moves of handles, in order.
    pub moves: Vec<Move>,
}

impl PlainWorld {
    /// The world in which a run begins: process 1 is ready, with this start.
    pub fn new(alloc: Global, start: Start) -> Result<PlainWorld, NoMemory>
        ensures { IfOk result (λ world. shown_world world ≡ first_world (Born start ∷ [])) }
    {
        let first = PlainProcess::fresh(alloc, start, PlainStage::Ready);
        Ok(PlainWorld {
            processes: Population::new(alloc, first)?,
            links: Vec::new(alloc),
            names: Vec::new(alloc),
            numbers_drawn: 1,
            streams: 0,
            spawns: 0,
            sends: 0,
            time: 0,
            row: 0,
            over: false,
            streamed: Vec::new(alloc),
            closed: Vec::new(alloc),
            exits: Vec::new(alloc),
            moves: Vec::new(alloc),
        })
    }

    /// The allocator.
    pub(crate) fn alloc(&self) -> Global {
        *self.closed.allocator()
    }

    /// The ready list, the front first.
    pub fn ready(&self) -> &[u64]
        ensures { result.now ≡ (shown_world self.now).ready }
    {
        self.processes.ready()
    }

    /// The process of this number, if anybody was born with it.
    pub(crate) fn at(&self, pid: u64) -> Option<&PlainProcess>
        ensures { MatchOption result ((shown_world self.now).process pid ≡ nobody)
            (λ process. (shown_world self.now).process pid ≡ shown_process process.now) }
    {
        self.processes.get(pid)
    }

    /// The process of this number is live.
    pub(crate) fn is_live(&self, pid: u64) -> bool
        ensures { result ≡ is_live ((shown_world self.now).process pid).stage }
    {
        match self.at(pid) {
            Some(process) => matches!(
                process.stage,
                PlainStage::Ready | PlainStage::Out(_) | PlainStage::Waiting(_)
            ),
            None => false,
        }
    }

    /// The process of this number is at home and can be answered.
    pub(crate) fn is_home(&self, pid: u64) -> bool
        ensures { result ≡ is_home ((shown_world self.now).process pid).stage }
    {
        match self.at(pid) {
            Some(process) => matches!(process.stage, PlainStage::Ready | PlainStage::Waiting(_)),
            None => false,
        }
    }

    /// Takes the process of this number out, to put it back changed; till then nobody has the number.
    pub(crate) fn take_process(&mut self, pid: u64) -> PlainProcess
        ensures taken { shown_process result ≡ (shown_world self.old).process pid }
        ensures left { shown_world self.new ≡ with_process (shown_world self.old) pid nobody }
    {
        let alloc = self.alloc();
        self.processes.take(alloc, pid)
    }

    /// Puts a process in the place of this number.
    pub(crate) fn put_process(&mut self, pid: u64, process: PlainProcess) -> Result<(), NoMemory>
        ensures { OnOk result (shown_world self.new ≡ with_process (shown_world self.old) pid (shown_process process)) }
    {
        let alloc = self.alloc();
        self.processes.put(alloc, pid, process)
    }

    /// The processes that were born and have not ended, by rising number.
    pub(crate) fn unended(&self) -> Result<Vec<u64>, NoMemory>
        ensures { IfOk result (λ pids. pids.items ≡ processes_at is_there (shown_world self.now)) }
    {
        self.processes.unended(self.alloc(), self.numbers_drawn)
    }

    /// The live processes, by rising number.
    pub(crate) fn live_processes(&self) -> Result<Vec<u64>, NoMemory>
        ensures { IfOk result (λ pids. pids.items ≡ live_processes (shown_world self.now)) }
    {
        let mut pids = Vec::new(self.alloc());
        let unended = self.unended()?;
        for pid in &unended {
            if self.is_live(*pid) {
                pids.push(*pid)?;
            }
        }
        Ok(pids)
    }

    /// The tag of the link of two processes, if they are linked.
    pub(crate) fn link_between(&self, a: u64, b: u64) -> Option<u64>
        ensures { result ≡ link_between (shown_world self.now) a b }
    {
        tag_between(&self.links, a.min(b), a.max(b))
    }

    /// Two processes have this link, or none.
    pub(crate) fn set_link(&mut self, a: u64, b: u64, tag: Option<u64>) -> Result<(), NoMemory>
        ensures { OnOk result (shown_world self.new ≡ with_link (shown_world self.old) a b tag) }
    {
        set_tag(&mut self.links, a.min(b), a.max(b), tag)
    }

    /// What a name names.
    pub(crate) fn name(&self, text: &Bytes) -> Option<u64>
        ensures { result ≡ (shown_world self.now).names text.now }
    {
        named(&self.names, text.as_slice())
    }

    /// A name names this process, or none.
    pub(crate) fn set_name(&mut self, text: &Bytes, pid: Option<u64>) -> Result<(), NoMemory>
        ensures { OnOk result (shown_world self.new ≡ with_name (shown_world self.old) text.now pid) }
    {
        set_named(&mut self.names, text, pid)
    }

    /// A move was made besides.
    pub(crate) fn add_move(&mut self, kind: PlainMove) -> Result<(), NoMemory>
        ensures { OnOk result (shown_world self.new ≡ with_moves (shown_world self.old) (shown_move kind ∷ [])) }
    {
        self.moves.push(Move::new(kind))?;
        Ok(())
    }

    /// These streams were closed besides.
    pub(crate) fn add_closed(&mut self, handles: &[u64]) -> Result<(), NoMemory>
        ensures { OnOk result (shown_world self.new ≡ with_closed (shown_world self.old) handles.now) }
    {
        self.closed.extend_from_slice(handles)?;
        Ok(())
    }
}
