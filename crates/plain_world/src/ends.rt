ghost use Rattle.std.specs.Prelude.{◌≡◌, IfOk, OnOk};
ghost use Rattle.world_rules.specs.World.{is_ended};
ghost use Rattle.world_rules.specs.Ends.{
  unnamed,
  unlinked_all,
  parted,
  held_handles,
  stripped,
  ended,
  ended_from_outside,
  fated,
  doomed,
  struck,
  all_struck,
  all_end,
  closed_with_first,
};
ghost use Rattle.plain_world.specs.ShownProcess.{shown_process};
ghost use Rattle.plain_world.specs.Shown.{shown_world};

use crate::link_list::cut_links;
use crate::name_list::forget;
use crate::{Exit, PlainMove, PlainProcess, PlainStage, PlainWhat, PlainWorld};
use memory_refusal::NoMemory;
use plain_part::PlainPart;
use std::alloc::Global;
use world_rules::End;

impl PlainProcess {
    /// The streams that the process holds: those of its table, then of its scratch message, then of its mailbox.
    fn held_handles(&self, alloc: Global) -> Result<Vec<u64>, NoMemory>
        ensures { IfOk result (λ handles. handles.items ≡ held_handles (shown_process self.now)) }
    {
        let mut handles = self.part.handles.clone()?;
        let of_scratch = self.part.scratch_handles(alloc)?;
        handles.extend_from_slice(&of_scratch)?;
        self.mail.push_handles(&mut handles)?;
        Ok(handles)
    }

    /// The process with nothing of its own left, ended so.
    fn strip(&mut self, alloc: Global, end: End)
        ensures { shown_process self.new ≡ stripped (shown_process self.old) end }
    {
        self.stage = PlainStage::Ended(end);
        self.part = PlainPart::new(alloc);
        self.owed = None;
        self.mail.clear();
        self.deadline = None;
    }

    /// The process without its mailbox, doomed so under this worker.
    fn doom(&mut self, worker: u8, end: End)
        ensures { shown_process self.new ≡ fated (shown_process self.old) worker end }
    {
        self.stage = PlainStage::Doomed(worker, end);
        self.mail.clear();
    }
}

impl PlainWorld {
    /// No name names the process.
    fn unname(&mut self, pid: u64)
        ensures { shown_world self.new ≡ unnamed (shown_world self.old) pid }
    {
        forget(&mut self.names, pid);
    }

    /// The process has no links.
    fn unlink_all(&mut self, pid: u64)
        ensures { shown_world self.new ≡ unlinked_all (shown_world self.old) pid }
    {
        cut_links(&mut self.links, pid);
    }

    /// The process is in the place of its number, without its registry entries and its links.
    fn put_parted(&mut self, pid: u64, process: PlainProcess) -> Result<(), NoMemory>
        ensures { OnOk result (shown_world self.new ≡ parted (shown_world self.old) pid (shown_process process)) }
    {
        self.put_process(pid, process)?;
        self.unname(pid);
        self.unlink_all(pid);
        Ok(())
    }

    /// The process ends so.
    pub(crate) fn end(&mut self, pid: u64, end: End) -> Result<(), NoMemory>
        ensures { OnOk result (shown_world self.new ≡ ended (shown_world self.old) pid end) }
    {
        let alloc = self.alloc();
        let mut process = self.take_process(pid);
        let handles = process.held_handles(alloc)?;
        process.strip(alloc, end);
        self.put_parted(pid, process)?;
        self.add_closed(&handles)?;
        self.add_move(PlainMove::ShutAll { pid })?;
        self.exits.push(Exit::new(pid, end))?;
        Ok(())
    }

    /// An end comes to the process that is not of its own turn.
    pub(crate) fn end_from_outside(&mut self, pid: u64, end: End) -> Result<(), NoMemory>
        ensures { OnOk result (shown_world self.new ≡ ended_from_outside (shown_world self.old) pid end) }
    {
        self.add_arrival(pid, PlainWhat::Doomed(end))?;
        self.end(pid, end)
    }

    /// The process is out to this worker, and has this end at its Give.
    fn doom(&mut self, pid: u64, worker: u8, end: End) -> Result<(), NoMemory>
        ensures { OnOk result (shown_world self.new ≡ doomed (shown_world self.old) pid worker end) }
    {
        let alloc = self.alloc();
        let mut process = self.take_process(pid);
        let mut handles = Vec::new(alloc);
        process.mail.push_handles(&mut handles)?;
        process.doom(worker, end);
        self.put_parted(pid, process)?;
        self.add_closed(&handles)?;
        self.add_move(PlainMove::ShutMail { pid })
    }

    /// An end comes to the process: it ends, or is doomed where it is out.
    pub(crate) fn strike(&mut self, pid: u64, end: End) -> Result<(), NoMemory>
        ensures { OnOk result (shown_world self.new ≡
            struck ((shown_world self.old).process pid).stage (shown_world self.old) pid end) }
    {
        let Some(process) = self.at(pid) else {
            return Ok(());
        };
        match process.stage {
            PlainStage::Unborn => Ok(()),
            PlainStage::Ready => self.end_from_outside(pid, end),
            PlainStage::Out(worker) => self.doom(pid, worker, end),
            PlainStage::Waiting(_) => self.end_from_outside(pid, end),
            PlainStage::Doomed(_, _) => Ok(()),
            PlainStage::Ended(_) => Ok(()),
        }
    }

    /// The same end comes to these processes, in this order.
    pub(crate) fn strike_all(&mut self, pids: &[u64], end: End) -> Result<(), NoMemory>
        ensures { OnOk result (shown_world self.new ≡ all_struck (shown_world self.old) pids.now end) }
    {
        for pid in pids {
            self.strike(*pid, end)?;
        }
        Ok(())
    }

    /// An end comes to every live process, and the run is over.
    pub(crate) fn end_all(&mut self, end: End) -> Result<(), NoMemory>
        ensures { OnOk result (shown_world self.new ≡ all_end (shown_world self.old) end) }
    {
        let live = self.live_processes()?;
        self.strike_all(&live, end)?;
        self.over = true;
        Ok(())
    }

    /// Process 1 has ended.
    fn has_first_ended(&self) -> bool
        ensures { result ≡ is_ended ((shown_world self.now).process 1).stage }
    {
        match self.at(1) {
            Some(process) => matches!(process.stage, PlainStage::Ended(_)),
            None => false,
        }
    }

    /// Where process 1 has ended, every other process ends Closed, and the run is over.
    pub(crate) fn close_with_first(&mut self) -> Result<(), NoMemory>
        ensures { OnOk result (shown_world self.new ≡ closed_with_first (shown_world self.old)) }
    {
        if self.has_first_ended() {
            return self.end_all(End::Closed);
        }
        Ok(())
    }
}
