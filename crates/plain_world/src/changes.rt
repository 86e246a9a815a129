ghost use Rattle.std.specs.Prelude.{◌≡◌, OnOk};
ghost use Rattle.world_rules.specs.World.{with_process};
ghost use Rattle.world_rules.specs.Changes.{
  with_arrival,
  with_part,
  readied,
  answered,
  replied,
  pended,
  waiting,
  posted,
};
ghost use Rattle.plain_part.specs.Shown.{shown_item, shown_part};
ghost use Rattle.plain_world.specs.What.{shown_what};
ghost use Rattle.plain_world.specs.ShownProcess.{shown_process};
ghost use Rattle.plain_world.specs.Shown.{shown_world};

use crate::{Arrival, PlainStage, PlainWhat, PlainWorld};
use host_port::{Call, Reply, Request};
use memory_refusal::NoMemory;
use plain_part::{MailItem, PlainPart};

impl PlainWorld {
    /// This arrives at the process.
    pub(crate) fn add_arrival(&mut self, pid: u64, what: PlainWhat) -> Result<(), NoMemory>
        ensures { OnOk result (shown_world self.new ≡ with_arrival (shown_world self.old) pid (shown_what what)) }
    {
        let mut process = self.take_process(pid);
        process.arrivals.push(Arrival::new(process.gives, what))?;
        self.put_process(pid, process)
    }

    /// The process has this part.
    pub(crate) fn put_part(&mut self, pid: u64, part: PlainPart) -> Result<(), NoMemory>
        ensures { OnOk result (shown_world self.new ≡ with_part (shown_world self.old) pid (shown_part part)) }
    {
        let mut process = self.take_process(pid);
        process.part = part;
        self.put_process(pid, process)
    }

    /// The request and its reply join the process's calls; it owes nothing, waits for nothing and is ready.
    fn make_ready(&mut self, pid: u64, request: &Request, reply: Reply) -> Result<(), NoMemory>
        ensures { OnOk result (shown_world self.new ≡ with_process (shown_world self.old) pid
            (readied ((shown_world self.old).process pid) request.now reply)) }
    {
        let request = request.try_clone()?;
        let mut process = self.take_process(pid);
        process.stage = PlainStage::Ready;
        process.calls.push(Call { request, reply })?;
        process.owed = None;
        process.deadline = None;
        self.put_process(pid, process)
    }

    /// A process that is at home gets the reply to its request, and is ready.
    pub(crate) fn answer(
        &mut self,
        pid: u64,
        request: &Request,
        reply: Reply,
        what: PlainWhat,
    ) -> Result<(), NoMemory>
        ensures { OnOk result (shown_world self.new ≡
            answered (shown_world self.old) pid request.now reply (shown_what what)) }
    {
        if self.is_home(pid) {
            self.make_ready(pid, request, reply)?;
            return self.add_arrival(pid, what);
        }
        Ok(())
    }

    /// A process that is at home gets a reply that is neither a delivery nor an opened stream.
    pub(crate) fn reply(
        &mut self,
        pid: u64,
        request: &Request,
        reply: Reply,
    ) -> Result<(), NoMemory>
        ensures { OnOk result (shown_world self.new ≡ replied (shown_world self.old) pid request.now reply) }
    {
        let what = PlainWhat::Answered(reply.try_clone()?);
        self.answer(pid, request, reply, what)
    }

    /// The process is ready, and its next turn tries the same request again.
    pub(crate) fn pend(&mut self, pid: u64, request: &Request) -> Result<(), NoMemory>
        ensures { OnOk result (shown_world self.new ≡ pended (shown_world self.old) pid request.now) }
    {
        let owed = request.try_clone()?;
        let mut process = self.take_process(pid);
        process.stage = PlainStage::Ready;
        process.owed = Some(owed);
        self.put_process(pid, process)
    }

    /// The process waits for the answer to its request, up to a deadline or without end.
    pub(crate) fn wait(
        &mut self,
        pid: u64,
        request: &Request,
        deadline: Option<u64>,
    ) -> Result<(), NoMemory>
        ensures { OnOk result (shown_world self.new ≡ waiting (shown_world self.old) pid request.now deadline) }
    {
        let awaited = request.try_clone()?;
        let mut process = self.take_process(pid);
        process.stage = PlainStage::Waiting(awaited);
        process.deadline = deadline;
        self.put_process(pid, process)
    }

    /// The item goes behind the others of the mailbox.
    pub(crate) fn post(&mut self, to: u64, item: MailItem) -> Result<(), NoMemory>
        ensures { OnOk result (shown_world self.new ≡ posted (shown_world self.old) to (shown_item item)) }
    {
        let mut process = self.take_process(to);
        process.mail.push(item)?;
        self.put_process(to, process)
    }
}
