ghost use Rattle.std.specs.Prelude.{◌≡◌, ◌↔◌, ◌+◌, ◌≤◌, Some, None, length, option_map};
ghost use Rattle.std.specs.Prelude.{IfOk, OnOk, OnErr, IfErr, IfSome, IfNone, OnSome};
ghost use Rattle.std.specs.Option.{option_copied};
ghost use Rattle.resource_table.specs.Steps.{Sheds, told};
ghost use Rattle.message_scratch.specs.Messages.{blank_message, unread, slots_of, handles_in, handle_at};
ghost use Rattle.message_scratch.specs.Changes.{fitting, with_bytes, next_bytes, after_read, is_within, after_seek};
ghost use Rattle.message_scratch.specs.Changes.{after_push, after_take, HasBounds};
ghost use Rattle.message_scratch.specs.Refused.{handed_back};

use crate::{Message, PushRefused, ScratchFault};
use outside::Stream;
use resource_table::{Owned, Shed};
use std::alloc::Global;
use std::marker::Model;

/// How many streams may be pushed into a message.
const PLACES: usize = 64;

/// The scratch area of a process: a message, of which so many bytes were read, or none.
#[derive(Drop)]
pub struct Scratch<S: Stream> {
    alloc: Global,
    message: Option<Message<S>>,
    read_place: usize,
}

impl<S: Stream> Model for Scratch<S> {
    ghost use Rattle.std.specs.Prelude.{◌≤◌, Option, IfSome, length, option_map};
    ghost use Rattle.message_scratch.specs.Messages.{Scratch as ScratchShown};

    ghost Value = { Option (ScratchShown S) };

    ghost view = { λ a. option_map (λ m. record { message = m; read_place = a.read_place }) a.message };

    ghost invariant = { λ a. IfSome a.message (λ m. a.read_place ≤ length m.bytes) };
}

impl<S: Stream> Scratch<S> {
    /// A scratch area without a message. It takes no memory.
    pub fn new(alloc: Global) -> Scratch<S>
        ensures { result ≡ None }
    {
        Scratch {
            alloc,
            message: None,
            read_place: 0,
        }
    }

    /// Makes a blank message of this tag. The streams of the old message are shut into the shed, by rising place.
    pub fn create(&mut self, tag: u64, shed: &mut Shed<S>)
        requires room { length shed.old + length (handles_in (slots_of self.old)) ≤ 320 }
        ensures scratch { self.new ≡ Some (unread (blank_message tag)) }
        ensures shed { Sheds (told S.taken S.put S.faults S.waits S.empties S.down) (handles_in (slots_of self.old))
            shed.old shed.new }
    {
        self.hold(Message::new(self.alloc, tag), shed);
    }

    /// Takes a message, to be read from its first byte on. The streams of the old message are shut into the shed, by
    /// rising place.
    pub fn hold(&mut self, message: Message<S>, shed: &mut Shed<S>)
        requires room { length shed.old + length (handles_in (slots_of self.old)) ≤ 320 }
        ensures scratch { self.new ≡ Some (unread message) }
        ensures shed { Sheds (told S.taken S.put S.faults S.waits S.empties S.down) (handles_in (slots_of self.old))
            shed.old shed.new }
    {
        self.read_place = 0;
        if let Some(old) = self.message.replace(message) {
            old.shut_into(shed);
        }
    }

    /// Shuts the streams of the message into the shed, by rising place. There is no message then.
    pub fn drain(&mut self, shed: &mut Shed<S>)
        requires room { length shed.old + length (handles_in (slots_of self.old)) ≤ 320 }
        ensures scratch { self.new ≡ None }
        ensures shed { Sheds (told S.taken S.put S.faults S.waits S.empties S.down) (handles_in (slots_of self.old))
            shed.old shed.new }
    {
        if let Some(old) = self.message.take() {
            old.shut_into(shed);
        }
    }

    /// Writes as many of the bytes behind those of the message as still fit in 1,048,576, and tells how many.
    /// `NoMessage` comes exactly without a message; `NoMemory` for want of memory, and then nothing was written.
    pub fn write(&mut self, bytes: &[u8]) -> Result<u32, ScratchFault>
        ensures no_message { (result ≡ Err ScratchFault.NoMessage) ↔ (self.old ≡ None) }
        ensures count { IfOk result (λ count. IfSome self.old (λ s. count ≡ length (fitting bytes.now s))) }
        ensures ok { OnOk result (self.new ≡ option_map (λ s. with_bytes (fitting bytes.now s) s) self.old) }
        ensures err { OnErr result (self.new ≡ self.old) }
    {
        match &mut self.message {
            Some(message) => match message.write(bytes) {
                Ok(count) => Ok(count),
                Err(_) => Err(ScratchFault::NoMemory),
            },
            None => Err(ScratchFault::NoMessage),
        }
    }

    /// Moves the read place. Some(false) comes exactly past the size, and then nothing changes; None exactly without a
    /// message.
    pub fn seek(&mut self, at: u64) -> Option<bool>
        ensures within { result ≡ option_map (is_within at) self.old }
        ensures moved { self.new ≡ option_map (after_seek at) self.old }
    {
        let message = self.message.as_ref()?;
        if at > message.bytes().len() as u64 {
            return Some(false);
        }
        self.read_place = at as usize;
        Some(true)
    }

    /// The tag of the message; None exactly without one.
    pub fn tag(&self) -> Option<u64>
        ensures { result ≡ option_map (λ s. s.message.tag) self.now }
    {
        Some(self.message.as_ref()?.tag())
    }

    /// How many bytes the message has; None exactly without one. They are at most 1,048,576, and its places at most 64.
    pub fn size(&self) -> Option<u64>
        ensures size { result ≡ option_map (λ s. length s.message.bytes) self.now }
        ensures bounds { IfSome self.now HasBounds }
    {
        Some(self.message.as_ref()?.bytes().len() as u64)
    }

    /// How many streams were pushed into the message, those among them that were taken out again; None exactly without
    /// a message.
    pub fn pushes(&self) -> Option<u32>
        ensures { result ≡ option_map (λ s. length s.message.slots) self.now }
    {
        Some(self.message.as_ref()?.slots().len() as u32)
    }

    /// Gives the message up; None exactly without one.
    pub fn let_go(&mut self) -> Option<Message<S>>
        ensures given { result ≡ option_map (λ s. s.message) self.old }
        ensures left { self.new ≡ None }
    {
        self.message.take()
    }

    /// Puts a stream into the next place of the message, and tells that place: the k-th push has place k, from 0, and a
    /// place isn't used again. `NoMessage` comes exactly without a message; else `PlacesFull` exactly after 64 pushes;
    /// else `NoMemory` for want of memory. Each gives the handle back and leaves the message.
    pub fn push_stream(&mut self, h: Owned<S>) -> Result<u64, PushRefused<S>>
        ensures no_message { (result ≡ Err (PushRefused.NoMessage h)) ↔ (self.old ≡ None) }
        ensures full { (result ≡ Err (PushRefused.PlacesFull h)) ↔ (length (slots_of self.old) ≡ 64) }
        ensures place { IfOk result (λ place. place ≡ length (slots_of self.old)) }
        ensures ok { OnOk result (self.new ≡ option_map (after_push h) self.old) }
        ensures back { IfErr result (λ refused. handed_back refused ≡ h) }
        ensures err { OnErr result (self.new ≡ self.old) }
    {
        match &mut self.message {
            Some(message) => {
                let place = message.slots().len();
                if place == PLACES {
                    return Err(PushRefused::PlacesFull(h));
                }
                match message.push(h) {
                    Ok(()) => Ok(place as u64),
                    Err(back) => Err(PushRefused::NoMemory(back)),
                }
            }
            None => Err(PushRefused::NoMessage(h)),
        }
    }

    /// Takes the stream out of a place, which stays empty. None exactly where there is no message or the place is
    /// empty, and then nothing changes.
    pub fn take_stream(&mut self, place: u64) -> Option<Owned<S>>
        ensures taken { result ≡ handle_at (slots_of self.old) place }
        ensures left { OnSome result (self.new ≡ option_map (after_take place) self.old) }
        ensures none { IfNone result (self.new ≡ self.old) }
    {
        self.message.as_mut()?.take(place as usize)
    }

    /// The number of the handle that `take_stream` would give.
    pub fn at(&self, place: u64) -> Option<u64>
        ensures { result ≡ option_map (λ h. h.number) (handle_at (slots_of self.now) place) }
    {
        let slot = self.message.as_ref()?.slots().get(place as usize)?;
        Some(slot.as_ref()?.number())
    }

    /// Lets go of a scratch area without a message.
    pub fn destroy_empty(self)
        requires { self ≡ None }
    {
        let Scratch {
            alloc: _,
            message,
            read_place: _,
        } = self;
        match message {
            None => {}
            Some(_) => unreachable!(),
        }
    }
}

impl<S: Stream> Scratch<S> {
    ghost use mathlib.Core.Option.{none};
    ghost use Rattle.std.specs.Prelude.{⊤};
    ghost use Rattle.std.specs.Borrow.{sem, follows_so};
    ghost use Rattle.message_scratch.specs.contracts.scratch.Scratch.{the_row};

    /// Reads so many bytes from the read place on, or as many as are left, and moves the read place behind them. None
    /// exactly without a message.
    pub fn read(&mut self, len: u32) -> Option<&[u8]>
        ensures bytes { option_copied result ≡ option_map (next_bytes len) self.old }
        ensures* moved { sem 𝓛 (follows_so (the_row S.row S.Stream) (the_row S.row S.Stream) self.entry.ghost_name none
            (λ _ _. ⊤) (λ now. now ≡ option_map (after_read len) self.old)) }
    {
        let message = self.message.as_ref()?;
        let rest = &message.bytes()[self.read_place..];
        let bytes = &rest[..rest.len().min(len as usize)];
        self.read_place += bytes.len();
        Some(bytes)
    }
}
