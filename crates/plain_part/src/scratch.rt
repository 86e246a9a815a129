ghost use Rattle.std.specs.Prelude.{◌≡◌, ◌+◌, ◌-◌, ◌++◌, ◌∷◌, [], length, take, drop, Some, IfOk, OnOk, OnSome, IfNone};
ghost use Rattle.world_rules.specs.Part.{unread, most_message_bytes, handle_at, emptied};

use crate::Message;
use memory_refusal::NoMemory;
use std::marker::Model;

/// The scratch area holds a message, of which so many bytes were read.
#[derive(Debug, Drop)]
pub struct Scratch {
    message: Message,
    read_place: u64,
}

impl Model for Scratch {
    ghost use Rattle.world_rules.specs.Part as rules;

    ghost Value = { rules.Scratch };

    ghost view = { λ a. record { message = a.message; read_place = a.read_place } };
}

impl Scratch {
    /// A message of which nothing was read.
    pub fn unread(message: Message) -> Scratch
        ensures { result ≡ unread message }
    {
        Scratch {
            message,
            read_place: 0,
        }
    }

    /// The message that the area holds.
    pub fn message(&self) -> &Message
        ensures { result.now ≡ self.now.message }
    {
        &self.message
    }

    /// How many of its bytes were read.
    pub fn read_place(&self) -> u64
        ensures { result ≡ self.now.read_place }
    {
        self.read_place
    }

    /// The message, without a copy.
    pub fn into_message(self) -> Message
        ensures { result ≡ self.message }
    {
        self.message
    }

    /// The bytes that a read gives: from the read place on, as many as are asked for.
    pub fn bytes_from_here(&self, len: u64) -> &[u8]
        ensures { result.now ≡ take len (drop self.now.read_place self.now.message.bytes) }
    {
        first_bytes(bytes_after(self.message.bytes(), self.read_place), len)
    }

    /// Moves the read place past the bytes that a read gives.
    pub fn read(&mut self, len: u64)
        ensures { self.new ≡ record self.old {
          read_place =
              self.old.read_place + length (take len (drop self.old.read_place self.old.message.bytes));
        } }
    {
        let left = (self.message.bytes().len() as u64).saturating_sub(self.read_place);
        self.read_place += len.min(left);
    }

    /// Sets the read place.
    pub fn seek(&mut self, place: u64)
        ensures { self.new ≡ record self.old { read_place = place } }
    {
        self.read_place = place;
    }

    /// Puts bytes behind the others of the message, as many as it still holds.
    pub fn write(&mut self, bytes: &[u8]) -> Result<(), NoMemory>
        ensures { OnOk result (self.new ≡ record self.old {
          message = record self.old.message {
            bytes = self.old.message.bytes ++ take (most_message_bytes - length self.old.message.bytes) bytes.now;
          };
        }) }
    {
        self.message.write(bytes)
    }

    /// Puts a stream into the next slot of the message.
    pub fn push_stream(&mut self, handle: u64) -> Result<(), NoMemory>
        ensures { OnOk result (self.new ≡ record self.old {
          message = record self.old.message {
            slots = self.old.message.slots ++ Some handle ∷ [];
          };
        }) }
    {
        self.message.push_stream(handle)
    }

    /// Takes the stream out of a slot; None exactly where none is there, and then nothing changes.
    pub fn take_stream(&mut self, place: u64) -> Option<u64>
        ensures taken { result ≡ handle_at self.old.message.slots place }
        ensures emptied { OnSome result (self.new ≡ record self.old {
          message = record self.old.message {
            slots = emptied self.old.message.slots place;
          };
        }) }
        ensures none { IfNone result (self.new ≡ self.old) }
    {
        self.message.take_stream(place)
    }

    /// The same once more.
    pub fn try_clone(&self) -> Result<Scratch, NoMemory>
        ensures { IfOk result (λ copy. copy ≡ self.now) }
    {
        Ok(Scratch {
            message: self.message.try_clone()?,
            read_place: self.read_place,
        })
    }
}

/// The bytes from a place on; none where the place is past the last.
fn bytes_after(bytes: &[u8], place: u64) -> &[u8]
    ensures { result.now ≡ drop place bytes.now }
{
    if place >= bytes.len() as u64 {
        return &[];
    }
    &bytes[place as usize..]
}

/// The first bytes, as many as there are up to this many.
fn first_bytes(bytes: &[u8], len: u64) -> &[u8]
    ensures { result.now ≡ take len bytes.now }
{
    if len >= bytes.len() as u64 {
        return bytes;
    }
    &bytes[..len as usize]
}
