ghost use Rattle.std.specs.Prelude.{◌≡◌, ◌↔◌, ◌<◌, ◌≤◌, ◌+◌, [], length, vec_len, vec_capacity};
ghost use Rattle.std.specs.Prelude.{Contains, IsTrue, IsNone, OnOk, OnErr, IfOk, IfErr, IfSome, IfNone, MatchOption};
ghost use Rattle.resource_table.specs.Handles.{IsRising, numbers_of, handle_of, with_handle, without_handle, Changes};
ghost use Rattle.resource_table.specs.Places.{IsPlace, StandsAt, ChangesAt};
ghost use Rattle.resource_table.specs.Steps.{Reads, Writes, Sheds, told};

use crate::{Owned, Shed};
use memory_refusal::NoMemory;
use outside::{IoStep, Stream};
use std::alloc::Global;
use std::marker::Model;

/// How many streams a table holds.
const PLACES: usize = 256;

/// The streams that a process owns, by their numbers. There are 256 places.
pub struct Resources<S: Stream> {
    handles: Vec<Owned<S>>,
}

impl<S: Stream> Model for Resources<S> {
    ghost use Rattle.std.specs.Prelude.{◌≡◌, ◌≤◌, List, vec_len, vec_capacity};
    ghost use Rattle.resource_table.specs.Handles.{Handle, IsRising};

    ghost Value = { List (Handle S) };

    ghost view = { λ a. a.handles.items };

    ghost invariant = { λ a.
        (vec_len a.handles ≤ 256)
        × (256 ≤ vec_capacity a.handles)
        × IsRising a.handles.items };
}

impl<S: Stream> Resources<S> {
    /// An empty table.
    pub fn new(alloc: Global) -> Result<Resources<S>, NoMemory>
        ensures { IfOk result (λ table. table ≡ []) }
    {
        Ok(Resources {
            handles: Vec::with_capacity(alloc, PLACES)?,
        })
    }

    /// A handle of this number is there.
    pub fn has(&self, h: u64) -> bool
        ensures { IsTrue result ↔ Contains (numbers_of self.now) h }
    {
        place_of(&self.handles, h).is_some()
    }

    /// How many handles are there: at most 256, by rising number.
    pub fn count(&self) -> u32
        ensures count { result ≡ length self.now }
        ensures bounded { result ≤ 256 }
        ensures rising { IsRising self.now }
    {
        self.handles.len() as u32
    }

    /// Puts a handle into its place. It is given back exactly where 256 handles are there, and then the table is as it
    /// was.
    pub fn put(&mut self, h: Owned<S>) -> Result<(), Owned<S>>
        requires new { ¬ Contains (numbers_of self.old) h.number }
        ensures ok { OnOk result (self.new ≡ with_handle h self.old) }
        ensures full { (result ≡ Err h) ↔ (length self.old ≡ 256) }
        ensures back { IfErr result (λ back. back ≡ h) }
        ensures err { OnErr result (self.new ≡ self.old) }
    {
        if self.handles.len() == PLACES {
            return Err(h);
        }
        let place = place_for(&self.handles, h.number());
        match self.handles.insert(place, h) {
            Ok(()) => Ok(()),
            // The room was made at the start.
            Err(_) => unreachable!(),
        }
    }

    /// Gives the handle of this number out; None exactly where it isn't there.
    pub fn give_out(&mut self, h: u64) -> Option<Owned<S>>
        ensures given { result ≡ handle_of h self.old }
        ensures left { self.new ≡ without_handle h self.old }
    {
        let place = place_of(&self.handles, h)?;
        Some(self.handles.remove(place))
    }

    /// Reads bytes of the stream of this number into the front of the buffer, as the stream's `read` does. None exactly
    /// where the number isn't there.
    pub fn read_step(&mut self, h: u64, buf: &mut [u8]) -> Option<IoStep>
        ensures none { IsNone result ↔ ¬ Contains (numbers_of self.old) h }
        ensures left { IfNone result (self.new ≡ self.old) }
        ensures unread { IfNone result (buf.new ≡ buf.old) }
        ensures read { IfSome result (λ step. Changes h
            (Reads (told S.taken S.put S.faults S.waits S.empties S.down) (length buf.old) buf.new step)
            self.old self.new) }
    {
        let place = place_of(&self.handles, h)?;
        Some(read_at(&mut self.handles, place, buf))
    }

    /// Writes the first bytes of the piece to the stream of this number, as the stream's `write` does. None exactly
    /// where the number isn't there.
    pub fn write_step(&mut self, h: u64, piece: &[u8]) -> Option<IoStep>
        ensures none { IsNone result ↔ ¬ Contains (numbers_of self.old) h }
        ensures left { IfNone result (self.new ≡ self.old) }
        ensures written { IfSome result (λ step. Changes h
            (Writes (told S.taken S.put S.faults S.waits S.empties S.down) (length piece.now) piece.now step)
            self.old self.new) }
    {
        let place = place_of(&self.handles, h)?;
        Some(write_at(&mut self.handles, place, piece))
    }

    /// Shuts all streams into the shed, by rising number. The table is empty then.
    pub fn drain(&mut self, shed: &mut Shed<S>)
        requires room { length shed.old + length self.old ≤ 320 }
        ensures empty { self.new ≡ [] }
        ensures shed { Sheds (told S.taken S.put S.faults S.waits S.empties S.down) self.old shed.old shed.new }
    {
        shut_all(&mut self.handles, shed);
    }

    /// Lets go of an empty table.
    pub fn destroy_empty(self)
        requires { self ≡ [] }
    {
        let Resources { handles } = self;
        handles.destroy_empty();
    }
}

/// The place of the first handle whose number isn't less than this.
fn place_for<S: Stream>(handles: &[Owned<S>], number: u64) -> usize
    requires { IsRising handles.now }
    ensures { IsPlace number handles.now result }
{
    handles.partition_point(|handle| handle.number() < number)
}

/// The place of the handle of this number; None exactly where it isn't there.
fn place_of<S: Stream>(handles: &[Owned<S>], number: u64) -> Option<usize>
    requires { IsRising handles.now }
    ensures { MatchOption result (¬ Contains (numbers_of handles.now) number) (StandsAt number handles.now) }
{
    let place = place_for(handles, number);
    if handles.get(place)?.number() == number {
        Some(place)
    } else {
        None
    }
}

/// Reads bytes of the stream at a place.
fn read_at<S: Stream>(handles: &mut Vec<Owned<S>>, place: usize, buf: &mut [u8]) -> IoStep
    requires { place < vec_len handles.old }
    ensures read { ChangesAt place
        (Reads (told S.taken S.put S.faults S.waits S.empties S.down) (length buf.old) buf.new result)
        handles.old.items handles.new.items }
    ensures len { vec_len handles.new ≡ vec_len handles.old }
    ensures capacity { vec_capacity handles.new ≡ vec_capacity handles.old }
{
    handles[place].read(buf)
}

/// Writes the first bytes of the piece to the stream at a place.
fn write_at<S: Stream>(handles: &mut Vec<Owned<S>>, place: usize, piece: &[u8]) -> IoStep
    requires { place < vec_len handles.old }
    ensures written { ChangesAt place
        (Writes (told S.taken S.put S.faults S.waits S.empties S.down) (length piece.now) piece.now result)
        handles.old.items handles.new.items }
    ensures len { vec_len handles.new ≡ vec_len handles.old }
    ensures capacity { vec_capacity handles.new ≡ vec_capacity handles.old }
{
    handles[place].write(piece)
}

/// Shuts the streams of a list into the shed, in their order.
fn shut_all<S: Stream>(handles: &mut Vec<Owned<S>>, shed: &mut Shed<S>)
    requires room { length shed.old + length handles.old.items ≤ 320 }
    ensures empty { handles.new.items ≡ [] }
    ensures len { vec_len handles.new ≡ 0 }
    ensures capacity { vec_capacity handles.new ≡ vec_capacity handles.old }
    ensures shed { Sheds (told S.taken S.put S.faults S.waits S.empties S.down) handles.old.items shed.old shed.new }
{
    handles.reverse();
    while let Some(handle) = handles.pop() {
        shed.shut(handle);
    }
}
