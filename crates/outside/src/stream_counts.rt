ghost use Rattle.std.specs.Prelude.{◌≡◌, ◌≤◌};
ghost use Rattle.outside.specs.MemStream.{HasCauses, IsEmptied, Fails, Waits, no_counts};

use crate::{IoStep, raise};
use std::marker::Model;

/// The counts of a stream in memory. Its methods give the answers that raise them; `size` is the number of bytes of the
/// piece, or the buffer's room.
#[derive(Drop)]
pub struct StreamCounts {
    faults: u64,
    waits: u64,
    empties: u64,
}

impl Model for StreamCounts {
    ghost use Rattle.outside.specs.MemStream.{Counts};

    ghost Value = { Counts };

    ghost view = { λ c. record { faults = c.faults; waits = c.waits; empties = c.empties } };
}

impl StreamCounts {
    /// Counts that begin at 0.
    pub fn new() -> StreamCounts
        ensures { result ≡ no_counts }
    {
        StreamCounts {
            faults: 0,
            waits: 0,
            empties: 0,
        }
    }

    /// No byte is moved. It counts unless there was none, or no room.
    pub fn empty(&mut self, size: usize) -> IoStep
        ensures planned { IsEmptied size self.old result self.new }
        ensures causes { HasCauses size self.old result self.new }
    {
        if size > 0 {
            raise(&mut self.empties);
        }
        IoStep::Done(0)
    }

    /// The call fails. At the end of the count of faults, no byte is moved instead.
    pub fn fail(&mut self, size: usize) -> IoStep
        ensures planned { Fails size self.old result self.new }
        ensures causes { HasCauses size self.old result self.new }
    {
        if raise(&mut self.faults) {
            IoStep::Failed
        } else {
            self.empty(size)
        }
    }

    /// The stream is not ready. At the end of the count of waits, no byte is moved instead.
    pub fn wait(&mut self, size: usize) -> IoStep
        ensures planned { Waits size self.old result self.new }
        ensures causes { HasCauses size self.old result self.new }
    {
        if raise(&mut self.waits) {
            IoStep::NotReady
        } else {
            self.empty(size)
        }
    }
}
