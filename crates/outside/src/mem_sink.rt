ghost use Rattle.std.specs.Prelude.{◌≡◌, ◌≤◌, [], IfOk, OnErr, Some};
ghost use Rattle.outside.specs.Sinks.{TakesFirst, SinkFault};
ghost use Rattle.outside.specs.MemSink.{PlannedWrite, new_tape};

use crate::{Failed, Sink, raise};
use memory_refusal::NoMemory;
use std::alloc::Global;
use std::marker::Model;

/// A sink in memory, which tells what was written to it. Writes of chosen numbers fail or take nothing.
///
/// Contracts see what was written, the room that is left, the most that one write takes, the numbers of the writes
/// that are to fail and to take nothing, the number of the next write and the count of faults. With no write that is
/// to fail or to take nothing, and as long as the room lasts, no write raises the count. Where the count stands at its
/// end, a write that is to fail takes nothing.
#[derive(Drop)]
pub struct MemSink {
    log: Vec<u8>,
    room: usize,
    longest: usize,
    fails: Vec<u64>,
    zeros: Vec<u64>,
    calls: u64,
    faults: u64,
}

impl Model for MemSink {
    ghost use Rattle.std.specs.Prelude.{◌-◌, ◌≤◌, vec_len, vec_capacity};
    ghost use Rattle.outside.specs.MemSink.{Tape, FitsRoom};

    ghost Value = { Tape };

    ghost view = { λ s. record {
      written = s.log.items;
      room = s.room - vec_len s.log;
      longest = s.longest;
      fails = s.fails.items;
      zeros = s.zeros.items;
      calls = s.calls;
      faults = s.faults;
    } };

    ghost invariant = { λ s. FitsRoom (vec_len s.log) s.room (vec_capacity s.log) s.longest };
}

impl MemSink {
    /// A sink with room for `room` bytes, of which one write takes at most `longest`. `fails` and `zeros` are the
    /// numbers of the writes that are to fail and to take nothing, counted from 0.
    pub fn new(
        alloc: Global,
        room: usize,
        longest: usize,
        fails: Vec<u64>,
        zeros: Vec<u64>,
    ) -> Result<MemSink, NoMemory>
        requires longest { 1 ≤ longest }
        ensures { IfOk result (λ sink. sink ≡ new_tape room longest fails.items zeros.items) }
    {
        Ok(MemSink {
            log: Vec::with_capacity(alloc, room)?,
            room,
            longest,
            fails,
            zeros,
            calls: 0,
            faults: 0,
        })
    }

    /// What was written so far.
    pub fn written(&self) -> &[u8]
        ensures { result.now ≡ self.now.written }
    {
        self.log.as_slice()
    }
}

impl Sink for MemSink {
    ghost use Rattle.std.specs.Prelude.{Some};

    ghost written = { λ s. Some s.written };

    ghost faults = { λ s. s.faults };

    fn write(&mut self, piece: &[u8]) -> Result<usize, Failed>
        ensures taken { IfOk result (TakesFirst piece.now (Some self.old.written) (Some self.new.written)) }
        ensures kept { OnErr result (Some self.new.written ≡ Some self.old.written) }
        ensures faults { SinkFault self.old.faults self.new.faults piece.now result }
        ensures planned { PlannedWrite self.old piece.now result self.new }
    {
        let call = self.calls;
        self.calls = call.saturating_add(1);
        let left = self.room - self.log.len();
        if self.fails.contains(&call) || left == 0 {
            if raise(&mut self.faults) {
                return Err(Failed);
            }
            return Ok(0);
        }
        if self.zeros.contains(&call) {
            if !piece.is_empty() {
                raise(&mut self.faults);
            }
            return Ok(0);
        }
        let count = piece.len().min(self.longest).min(left);
        match self.log.extend_from_slice(&piece[..count]) {
            Ok(()) => Ok(count),
            // The room was made at the start.
            Err(_) => unreachable!(),
        }
    }
}
