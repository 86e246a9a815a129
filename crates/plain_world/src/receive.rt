ghost use Rattle.std.specs.Prelude.{◌≡◌, IfOk, OnOk, option_map};
ghost use Rattle.world_rules.specs.Arrivals.{arrival_of};
ghost use Rattle.world_rules.specs.Changes.{with_part};
ghost use Rattle.world_rules.specs.Part.{scratch_handles};
ghost use Rattle.world_rules.specs.Receive.{
  held,
  delivery_reply,
  delivered,
  wanted_item,
  without_wanted,
  unmet,
  receive_performed,
  arrived,
};
ghost use Rattle.world_rules.specs.Settled.{settled, Delivered};
ghost use Rattle.plain_part.specs.Shown.{shown_item};
ghost use Rattle.plain_world.specs.Awaited.{number_of, awaited_in};
ghost use Rattle.plain_world.specs.Shown.{shown_world};
ghost use Rattle.plain_world.specs.What.{shown_what};

use crate::replies::number_reply;
use crate::time::is_positive;
use crate::{PlainMove, PlainStage, PlainWhat, PlainWorld};
use host_port::{Reply, Request};
use memory_refusal::NoMemory;
use plain_part::{HostCall, MailItem, call_of};
use std::alloc::Global;

/// The number of a message; a signal has none.
fn number_of(item: &MailItem) -> Option<u64>
    ensures { result ≡ number_of (shown_item item.now) }
{
    match item {
        MailItem::Letter(number, _) => Some(*number),
        MailItem::Signal(_) => None,
    }
}

/// 0 for a message, 1 for a signal.
fn delivery_reply(item: &MailItem) -> Reply
    ensures { result ≡ delivery_reply (shown_item item.now) }
{
    match item {
        MailItem::Letter(_, _) => number_reply(0),
        MailItem::Signal(_) => number_reply(1),
    }
}

/// What the arrival of an item is.
fn arrival_of(alloc: Global, item: &MailItem) -> Result<PlainWhat, NoMemory>
    ensures { IfOk result (λ what. shown_what what ≡ arrival_of (shown_item item.now)) }
{
    match item {
        MailItem::Letter(_, message) => Ok(PlainWhat::Delivered(
            message.tag(),
            Vec::from_slice(alloc, message.bytes())?,
            Vec::from_slice(alloc, message.slots())?,
        )),
        MailItem::Signal(tag) => Ok(PlainWhat::Signalled(*tag)),
    }
}

impl PlainWorld {
    /// The item is in the scratch area of the process.
    fn settle(&mut self, pid: u64, item: MailItem) -> Result<(), NoMemory>
        ensures { OnOk result (shown_world self.new ≡
            with_part (shown_world self.old) pid
            (settled ((shown_world self.old).process pid).part (Delivered (shown_item item)))) }
    {
        let alloc = self.alloc();
        let mut process = self.take_process(pid);
        process.part.deliver(alloc, item);
        self.put_process(pid, process)
    }

    /// The streams of the scratch message of the process, by rising slot.
    fn scratch_handles_of(&self, pid: u64) -> Result<Vec<u64>, NoMemory>
        ensures { IfOk result (λ handles. handles.items ≡
            scratch_handles ((shown_world self.now).process pid).part) }
    {
        match self.at(pid) {
            Some(process) => process.part.scratch_handles(self.alloc()),
            None => Ok(Vec::new(self.alloc())),
        }
    }

    /// The item is in the scratch area, and the streams of the old scratch message are closed.
    fn hold(&mut self, pid: u64, item: MailItem) -> Result<(), NoMemory>
        ensures { OnOk result (shown_world self.new ≡ held (shown_world self.old) pid (shown_item item)) }
    {
        let handles = self.scratch_handles_of(pid)?;
        let number = number_of(&item);
        self.settle(pid, item)?;
        self.add_closed(handles.as_slice())?;
        self.add_move(PlainMove::ShutScratch { pid })?;
        if let Some(message) = number {
            self.add_move(PlainMove::Received { pid, message })?;
        }
        Ok(())
    }

    /// The item comes into the scratch area, and the receive is answered.
    fn deliver(&mut self, pid: u64, request: &Request, item: MailItem) -> Result<(), NoMemory>
        ensures { OnOk result (shown_world self.new ≡
            delivered (shown_world self.old) pid request.now (shown_item item)) }
    {
        let reply = delivery_reply(&item);
        let what = arrival_of(self.alloc(), &item)?;
        self.hold(pid, item)?;
        self.answer(pid, request, reply, what)
    }

    /// Takes the item that a receive wants out of the mailbox; None exactly where none is wanted.
    fn take_wanted(&mut self, pid: u64, request: &Request) -> Result<Option<MailItem>, NoMemory>
        ensures found { IfOk result (λ found.
            option_map shown_item found ≡ wanted_item (shown_world self.old) pid request.now) }
        ensures left { OnOk result (shown_world self.new ≡
            without_wanted (shown_world self.old) pid request.now) }
    {
        let mut process = self.take_process(pid);
        let found = process.mail.pick(request.first.as_slice());
        self.put_process(pid, process)?;
        Ok(found)
    }

    /// A receive finds nothing that it wants: it is answered at once, or waits.
    fn receive_nothing(&mut self, pid: u64, request: &Request) -> Result<(), NoMemory>
        ensures { OnOk result (shown_world self.new ≡ unmet (shown_world self.old) pid request.now) }
    {
        let ms = request.ask.args[2];
        if ms == 0 {
            return self.reply(pid, request, number_reply(9027));
        }
        if is_positive(ms) {
            let deadline = self.deadline_after(ms);
            return self.wait(pid, request, Some(deadline));
        }
        self.wait(pid, request, None)
    }

    /// Receive: the first item of the mailbox whose tag is wanted is delivered.
    pub(crate) fn receive(&mut self, pid: u64, request: &Request) -> Result<(), NoMemory>
        ensures { OnOk result (shown_world self.new ≡ receive_performed (shown_world self.old) pid request.now) }
    {
        match self.take_wanted(pid, request)? {
            None => self.receive_nothing(pid, request),
            Some(item) => self.deliver(pid, request, item),
        }
    }

    /// The receive in which the process waits, if it waits in one.
    fn awaited_receive(&self, pid: u64) -> Result<Option<Request>, NoMemory>
        ensures { IfOk result (λ found. found ≡ awaited_in ((shown_world self.now).process pid).stage) }
    {
        let Some(process) = self.at(pid) else {
            return Ok(None);
        };
        let PlainStage::Waiting(request) = &process.stage else {
            return Ok(None);
        };
        match call_of(request) {
            Some(HostCall::Receive) => Ok(Some(request.try_clone()?)),
            _ => Ok(None),
        }
    }

    /// An item is put into a mailbox, and is delivered where the process waits for it.
    pub(crate) fn arrive(&mut self, to: u64, item: MailItem) -> Result<(), NoMemory>
        ensures { OnOk result (shown_world self.new ≡ arrived (shown_world self.old) to (shown_item item)) }
    {
        let awaited = self.awaited_receive(to)?;
        self.post(to, item)?;
        let Some(request) = awaited else {
            return Ok(());
        };
        match self.take_wanted(to, &request)? {
            None => Ok(()),
            Some(item) => self.deliver(to, &request, item),
        }
    }
}
