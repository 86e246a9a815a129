ghost use Rattle.std.specs.Prelude.{◌≡◌, ◌≤◌, ◌+◌, [], IfOk, IfSome, Some, true, length, map};
ghost use Rattle.outside.specs.Streams.{Moves};
ghost use Rattle.outside.specs.Scripts.{bytes_in, cue_of};
ghost use Rattle.outside.specs.MemStream.{HasCauses, KeepsPut, KeepsTaken, ReadsCues, WritesPiece, new_line, shut};

use crate::script::{Next, Script};
use crate::stream_counts::StreamCounts;
use crate::{IoStep, Piece, Stream};
use memory_refusal::NoMemory;
use std::alloc::Global;
use std::marker::Model;

/// A stream in memory, which tells what was read and written. It is read along a script; after the script a read is at
/// the end of the stream. Writes of chosen numbers fail, and so do all once the room is used up.
///
/// With no `Fail` in the script, no write that is to fail, and as long as the room lasts, no call raises the count of
/// faults. A call that would raise a count of faults or waits that stands at its end moves no byte instead.
#[derive(Drop)]
pub struct MemStream {
    script: Script,
    taken: Vec<u8>,
    put: Vec<u8>,
    room: usize,
    write_fails: Vec<u64>,
    writes: u64,
    counts: StreamCounts,
    down: bool,
}

impl Model for MemStream {
    ghost use Rattle.std.specs.Prelude.{◌-◌, ◌+◌, ◌≤◌, vec_len, vec_capacity};
    ghost use Rattle.outside.specs.Scripts.{bytes_in};
    ghost use Rattle.outside.specs.MemStream.{Line, HasRoom};

    ghost Value = { Line };

    ghost view = { λ s. record {
      taken = s.taken.items;
      script = s.script;
      put = s.put.items;
      room = s.room - vec_len s.put;
      write_fails = s.write_fails.items;
      writes = s.writes;
      counts = s.counts;
      down = s.down;
    } };

    ghost invariant = { λ s. HasRoom (vec_len s.put) s.room (vec_capacity s.put)
        (vec_len s.taken + bytes_in s.script) (vec_capacity s.taken) };
}

impl MemStream {
    /// A stream that is read along this script, with room for `room` bytes that are written. `write_fails` are the
    /// numbers of the writes that are to fail, counted from 0.
    pub fn new(
        alloc: Global,
        script: Vec<Piece>,
        write_fails: Vec<u64>,
        room: usize,
    ) -> Result<MemStream, NoMemory>
        ensures { IfOk result (λ stream. stream ≡ new_line (map cue_of script.items) write_fails.items room) }
    {
        let Some(size) = size_of_script(script.as_slice()) else {
            return Err(NoMemory);
        };
        Ok(MemStream {
            script: Script::new(alloc, script),
            taken: Vec::with_capacity(alloc, size)?,
            put: Vec::with_capacity(alloc, room)?,
            room,
            write_fails,
            writes: 0,
            counts: StreamCounts::new(),
            down: false,
        })
    }

    /// What was read so far.
    pub fn taken(&self) -> &[u8]
        ensures { result.now ≡ self.now.taken }
    {
        self.taken.as_slice()
    }

    /// What was written so far.
    pub fn put(&self) -> &[u8]
        ensures { result.now ≡ self.now.put }
    {
        self.put.as_slice()
    }
}

/// How many bytes the script has, where a `usize` can say it.
fn size_of_script(script: &[Piece]) -> Option<usize>
    ensures { IfSome result (λ size. size ≡ bytes_in (map cue_of script.now)) }
{
    let mut size: usize = 0;
    for piece in script {
        if let Piece::Bytes(bytes) = piece {
            size = size.checked_add(bytes.len())?;
        }
    }
    Some(size)
}

impl Stream for MemStream {
    ghost use Rattle.std.specs.Prelude.{Some};

    ghost taken = { λ s. Some s.taken };

    ghost put = { λ s. Some s.put };

    ghost faults = { λ s. s.counts.faults };

    ghost waits = { λ s. s.counts.waits };

    ghost empties = { λ s. s.counts.empties };

    ghost down = { λ s. s.down };

    fn read(&mut self, buffer: &mut [u8]) -> IoStep
        ensures taken { Moves result buffer.new (Some self.old.taken) (Some self.new.taken) }
        ensures causes { HasCauses (length buffer.old) self.old.counts result self.new.counts }
        ensures kept { KeepsPut self.old self.new }
        ensures planned { ReadsCues self.old.script (length buffer.old) buffer.new self.old result self.new }
    {
        match self.script.next(buffer) {
            Next::Bytes(count) => {
                match self.taken.extend_from_slice(&buffer[..count]) {
                    Ok(()) => {}
                    // The room was made at the start.
                    Err(_) => unreachable!(),
                }
                if count == 0 {
                    self.counts.empty(buffer.len())
                } else {
                    IoStep::Done(count)
                }
            }
            Next::Wait => self.counts.wait(buffer.len()),
            Next::Fail => self.counts.fail(buffer.len()),
            Next::End => self.counts.empty(buffer.len()),
        }
    }

    fn write(&mut self, piece: &[u8]) -> IoStep
        ensures put { Moves result piece.now (Some self.old.put) (Some self.new.put) }
        ensures causes { HasCauses (length piece.now) self.old.counts result self.new.counts }
        ensures kept { KeepsTaken self.old self.new }
        ensures planned { WritesPiece piece.now self.old result self.new }
    {
        let call = self.writes;
        self.writes = call.saturating_add(1);
        let left = self.room - self.put.len();
        if self.write_fails.contains(&call) || left == 0 {
            return self.counts.fail(piece.len());
        }
        let count = piece.len().min(left);
        match self.put.extend_from_slice(&piece[..count]) {
            Ok(()) => IoStep::Done(count),
            // The room was made at the start.
            Err(_) => unreachable!(),
        }
    }

    fn shut(&mut self)
        ensures { self.new ≡ shut self.old }
    {
        self.down = true;
    }
}
