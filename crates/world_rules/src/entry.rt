use crate::Halt;
use host_port::{Calls, Reply};

/// What came from outside with a Give.
#[derive(Debug, Drop)]
pub enum Side {
    /// Nothing came.
    Nothing,
    /// The time in milliseconds, at a call that needs it.
    Clock(u64),
    /// The outside can't answer yet; the process tries the same request again.
    Pending,
    /// What the outside answered.
    Answer(Reply),
    /// A stream was opened.
    Opened,
    /// The machine refused the memory that the answer would have needed.
    NoMemory,
}

/// One atomic step of a run.
#[derive(Debug, Drop)]
pub enum Entry {
    /// A worker takes the process at the front of the ready list.
    Take {
        /// The worker's number.
        worker: u8,
        /// The process's number.
        pid: u64,
    },
    /// A worker gives a process back after its turn.
    Give {
        /// The worker's number.
        worker: u8,
        /// The process's number.
        pid: u64,
        /// The calls that were answered within the turn, in order, with their replies.
        calls: Calls,
        /// The fuel that the process has burnt since its birth.
        fuel: u64,
        /// Why the turn ended.
        halt: Halt,
        /// What came from outside.
        side: Side,
    },
    /// A worker reads the clock, and the waits whose deadline has come end.
    Tick {
        /// The worker's number.
        worker: u8,
        /// The time in milliseconds.
        now: u64,
    },
    /// Nothing can happen any more: every live process ends.
    Stall {
        /// The worker's number.
        worker: u8,
    },
    /// The run was idle for too long: every live process ends.
    Idle {
        /// The worker's number.
        worker: u8,
    },
    /// The run is given up for want of memory: every live process ends.
    Starve {
        /// The worker's number.
        worker: u8,
    },
}
