ghost use Rattle.std.specs.Prelude.{◌≡◌, ◌+◌, ◌-◌, ◌≤◌, ◌<◌, ◌++◌, ◌∷◌, [], Some, length, take, min, vec_len};
ghost use Rattle.std.specs.Prelude.{IfOk, OnOk, OnErr, IfErr, IfNone, OnSome};
ghost use Rattle.resource_table.specs.Steps.{Sheds, told};
ghost use Rattle.message_scratch.specs.Messages.{blank_message, handles_in, handle_at};
ghost use Rattle.message_scratch.specs.Changes.{emptied};

use memory_refusal::NoMemory;
use outside::Stream;
use resource_table::{Owned, Shed};
use std::alloc::Global;
use std::marker::Model;

/// The most bytes of a message.
const MOST_BYTES: usize = 1_048_576;

/// A message: its tag, its bytes, and one slot for each stream that was pushed into it.
#[derive(Drop)]
pub struct Message<S: Stream> {
    tag: u64,
    bytes: Vec<u8>,
    slots: Vec<Option<Owned<S>>>,
}

impl<S: Stream> Model for Message<S> {
    ghost use Rattle.std.specs.Prelude.{◌≤◌, vec_len};
    ghost use Rattle.message_scratch.specs.Messages.{Message as MessageShown};

    ghost Value = { MessageShown S };

    ghost view = { λ a. record { tag = a.tag; bytes = a.bytes.items; slots = a.slots.items } };

    ghost invariant = { λ a. (vec_len a.bytes ≤ 1048576) × (vec_len a.slots ≤ 64) };
}

impl<S: Stream> Message<S> {
    /// A message with this tag, without bytes and slots. It takes no memory.
    pub fn new(alloc: Global, tag: u64) -> Message<S>
        ensures { result ≡ blank_message tag }
    {
        Message {
            tag,
            bytes: Vec::new(alloc),
            slots: Vec::new(alloc),
        }
    }

    /// Its tag, by which a receive finds it.
    pub fn tag(&self) -> u64
        ensures { result ≡ self.now.tag }
    {
        self.tag
    }

    /// How many slots it has, at most 64: one for each stream that was pushed, also where it was taken out again.
    pub fn pushes(&self) -> u32
        ensures pushes { result ≡ length self.now.slots }
        ensures bounded { length self.now.slots ≤ 64 }
    {
        self.slots.len() as u32
    }

    /// Its bytes, at most 1,048,576. Its slots are at most 64.
    pub(crate) fn bytes(&self) -> &[u8]
        ensures bytes { result.now ≡ self.now.bytes }
        ensures bounded { length self.now.bytes ≤ 1048576 }
        ensures slots { length self.now.slots ≤ 64 }
    {
        self.bytes.as_slice()
    }

    /// Its slots, at most 64.
    pub(crate) fn slots(&self) -> &[Option<Owned<S>>]
        ensures slots { result.now ≡ self.now.slots }
        ensures bounded { length self.now.slots ≤ 64 }
    {
        self.slots.as_slice()
    }

    /// Writes as many of the bytes behind its own as still fit, and tells how many.
    pub(crate) fn write(&mut self, bytes: &[u8]) -> Result<u32, NoMemory>
        ensures count { IfOk result (λ count. count ≡ min (length bytes.now) (1048576 - length self.old.bytes)) }
        ensures ok { IfOk result (λ count.
            self.new ≡ record self.old { bytes = self.old.bytes ++ take count bytes.now }) }
        ensures err { OnErr result (self.new ≡ self.old) }
    {
        let count = bytes.len().min(MOST_BYTES - self.bytes.len());
        self.bytes.extend_from_slice(&bytes[..count])?;
        Ok(count as u32)
    }

    /// Puts a handle into a slot of its own, behind the others; it is given back for want of memory.
    pub(crate) fn push(&mut self, h: Owned<S>) -> Result<(), Owned<S>>
        requires { length self.old.slots < 64 }
        ensures ok { OnOk result (self.new ≡ record self.old { slots = self.old.slots ++ Some h ∷ [] }) }
        ensures back { IfErr result (λ back. back ≡ h) }
        ensures err { OnErr result (self.new ≡ self.old) }
    {
        if self.slots.reserve(1).is_err() {
            return Err(h);
        }
        self.slots.push_reserved(Some(h));
        Ok(())
    }

    /// Takes the handle out of a slot, which stays empty.
    pub(crate) fn take(&mut self, place: usize) -> Option<Owned<S>>
        ensures taken { result ≡ handle_at self.old.slots place }
        ensures left { OnSome result (self.new ≡ record self.old { slots = emptied self.old.slots place }) }
        ensures none { IfNone result (self.new ≡ self.old) }
    {
        self.slots.get_mut(place)?.take()
    }

    /// Shuts the streams of the message into the shed, by rising slot, and lets go of the rest.
    pub fn shut_into(self, shed: &mut Shed<S>)
        requires room { length shed.old + length (handles_in self.slots) ≤ 320 }
        ensures shed { Sheds (told S.taken S.put S.faults S.waits S.empties S.down) (handles_in self.slots) shed.old
            shed.new }
    {
        let Message {
            tag: _,
            bytes: _,
            mut slots,
        } = self;
        shut_slots(&mut slots, shed);
        slots.destroy_empty();
    }
}

/// Shuts the streams in these slots into the shed, in their order.
fn shut_slots<S: Stream>(slots: &mut Vec<Option<Owned<S>>>, shed: &mut Shed<S>)
    requires room { length shed.old + length (handles_in slots.old.items) ≤ 320 }
    ensures empty { vec_len slots.new ≡ 0 }
    ensures shed { Sheds (told S.taken S.put S.faults S.waits S.empties S.down) (handles_in slots.old.items) shed.old
        shed.new }
{
    slots.reverse();
    while let Some(slot) = slots.pop() {
        match slot {
            Some(handle) => shed.shut(handle),
            None => {}
        }
    }
}
