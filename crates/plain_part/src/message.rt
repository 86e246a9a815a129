ghost use Rattle.std.specs.Prelude.{◌≡◌, ◌-◌, ◌++◌, ◌∷◌, [], ◌<◌, length, take, Some, IfOk, OnOk, OnSome, IfNone};
ghost use Rattle.world_rules.specs.Part.{blank_message, most_message_bytes, handle_at, emptied};

use memory_refusal::NoMemory;
use std::alloc::Global;
use std::marker::Model;

/// How many bytes a message holds.
const MOST_BYTES: usize = 1_048_576;

/// A message: its tag, its bytes, and one slot for each stream that was pushed into it, with the stream while it is
/// there.
#[derive(Debug, Drop)]
pub struct Message {
    tag: u64,
    bytes: Vec<u8>,
    slots: Vec<Option<u64>>,
}

impl Model for Message {
    ghost use Rattle.world_rules.specs.Part as rules;

    ghost Value = { rules.Message };

    ghost view = { λ a. record { tag = a.tag; bytes = a.bytes.items; slots = a.slots.items } };
}

impl Message {
    /// A message of this tag, with no bytes and no slots. It takes no memory yet.
    pub fn new(alloc: Global, tag: u64) -> Message
        ensures { result ≡ blank_message tag }
    {
        Message {
            tag,
            bytes: Vec::new(alloc),
            slots: Vec::new(alloc),
        }
    }

    /// Its tag.
    pub fn tag(&self) -> u64
        ensures { result ≡ self.now.tag }
    {
        self.tag
    }

    /// Its bytes.
    pub fn bytes(&self) -> &[u8]
        ensures { result.now ≡ self.now.bytes }
    {
        self.bytes.as_slice()
    }

    /// Its slots, each with its stream while that is there.
    pub fn slots(&self) -> &[Option<u64>]
        ensures { result.now ≡ self.now.slots }
    {
        self.slots.as_slice()
    }

    /// How many of these bytes the message still holds.
    pub fn room_for(&self, bytes: &[u8]) -> usize
        ensures { result ≡ length (take (most_message_bytes - length self.now.bytes) bytes.now) }
    {
        bytes.len().min(MOST_BYTES.saturating_sub(self.bytes.len()))
    }

    /// Puts bytes behind the others, as many as the message still holds.
    pub fn write(&mut self, bytes: &[u8]) -> Result<(), NoMemory>
        ensures { OnOk result (self.new ≡ record self.old {
          bytes = self.old.bytes ++ take (most_message_bytes - length self.old.bytes) bytes.now;
        }) }
    {
        let room = MOST_BYTES.saturating_sub(self.bytes.len());
        let taken = bytes.len().min(room);
        self.bytes.extend_from_slice(&bytes[..taken])?;
        Ok(())
    }

    /// Puts a stream into the next slot.
    pub fn push_stream(&mut self, handle: u64) -> Result<(), NoMemory>
        ensures { OnOk result (self.new ≡ record self.old { slots = self.old.slots ++ Some handle ∷ [] }) }
    {
        self.slots.push(Some(handle))?;
        Ok(())
    }

    /// The stream in a slot, if one is there.
    pub fn stream_at(&self, place: u64) -> Option<u64>
        ensures { result ≡ handle_at self.now.slots place }
    {
        slot_at(&self.slots, place)
    }

    /// Takes the stream out of a slot; None exactly where none is there, and then nothing changes.
    pub fn take_stream(&mut self, place: u64) -> Option<u64>
        ensures taken { result ≡ handle_at self.old.slots place }
        ensures emptied { OnSome result (self.new ≡ record self.old { slots = emptied self.old.slots place }) }
        ensures none { IfNone result (self.new ≡ self.old) }
    {
        let handle = slot_at(&self.slots, place)?;
        set_empty(&mut self.slots, place);
        Some(handle)
    }

    /// The same message once more.
    pub fn try_clone(&self) -> Result<Message, NoMemory>
        ensures { IfOk result (λ copy. copy ≡ self.now) }
    {
        Ok(Message {
            tag: self.tag,
            bytes: self.bytes.clone()?,
            slots: self.slots.clone()?,
        })
    }
}

/// The stream in a slot, if one is there.
pub(crate) fn slot_at(slots: &[Option<u64>], place: u64) -> Option<u64>
    ensures { result ≡ handle_at slots.now place }
{
    match slots.get(place as usize) {
        Some(slot) => *slot,
        None => None,
    }
}

/// Empties a slot that there is.
fn set_empty(slots: &mut [Option<u64>], place: u64)
    requires { place < length slots.old }
    ensures { slots.new ≡ emptied slots.old place }
{
    slots[place as usize] = None;
}
