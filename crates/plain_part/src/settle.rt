ghost use Rattle.std.specs.Prelude.{◌≡◌, option_map, IfOk, OnOk};
ghost use Rattle.world_rules.specs.Part as rules;
ghost use Rattle.world_rules.specs.Part.{scratch_handles, slots_of};
ghost use Rattle.world_rules.specs.Settled.{message_of, settled, SentOff, Delivered, StreamOpened, ListenerBound};
ghost use Rattle.plain_part.specs.Shown.{shown_part, shown_item};

use crate::numbers::{handles_in, with_number};
use crate::{MailItem, Message, PlainPart, Scratch};
use memory_refusal::NoMemory;
use std::alloc::Global;

/// The message that an item of a mailbox becomes: a signal makes an empty one with its tag.
fn message_of(alloc: Global, item: MailItem) -> Message
    ensures { result ≡ message_of (shown_item item) }
{
    match item {
        MailItem::Letter(_, message) => message,
        MailItem::Signal(tag) => Message::new(alloc, tag),
    }
}

impl PlainPart {
    /// The slots of the scratch message; without one there are none.
    pub fn slots(&self) -> &[Option<u64>]
        ensures { result.now ≡ slots_of (shown_part self.now).scratch }
    {
        match &self.scratch {
            Some(scratch) => scratch.message().slots(),
            None => &[],
        }
    }

    /// The streams of the scratch message, by rising slot.
    pub fn scratch_handles(&self, alloc: Global) -> Result<Vec<u64>, NoMemory>
        ensures { IfOk result (λ handles. handles.items ≡ scratch_handles (shown_part self.now)) }
    {
        handles_in(alloc, self.slots())
    }

    /// The scratch message was sent: it leaves the scratch area empty.
    pub fn take_message(&mut self) -> Option<Message>
        ensures taken { result ≡ option_map (λ (s : rules.Scratch). s.message) (shown_part self.old).scratch }
        ensures left { shown_part self.new ≡ settled (shown_part self.old) SentOff }
    {
        match self.scratch.take() {
            Some(scratch) => Some(scratch.into_message()),
            None => None,
        }
    }

    /// An item of the mailbox was delivered: it is in the scratch area, to be read from its first byte on.
    pub fn deliver(&mut self, alloc: Global, item: MailItem)
        ensures { shown_part self.new ≡ settled (shown_part self.old) (Delivered (shown_item item)) }
    {
        self.scratch = Some(Scratch::unread(message_of(alloc, item)));
    }

    /// A stream was opened: it joins the table.
    pub fn open_stream(&mut self, handle: u64) -> Result<(), NoMemory>
        ensures { OnOk result (shown_part self.new ≡ settled (shown_part self.old) (StreamOpened handle)) }
    {
        self.handles = with_number(*self.handles.allocator(), handle, &self.handles)?;
        Ok(())
    }

    /// A listener was bound: it has the next number. NoMemory comes also where no number is left.
    pub fn bind_listener(&mut self) -> Result<(), NoMemory>
        ensures { OnOk result (shown_part self.new ≡ settled (shown_part self.old) ListenerBound) }
    {
        let next = self.next_listener.checked_add(1).ok_or(NoMemory)?;
        self.listeners.push(self.next_listener)?;
        self.next_listener = next;
        Ok(())
    }
}
