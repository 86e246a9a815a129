use host_port::Call;
use world_rules::{Halt, Side};

/// A process that is given back, as an entry tells it.
#[derive(Clone, Copy)]
pub(crate) struct PlainGive<'a> {
    /// The worker.
    pub worker: u8,
    /// The process.
    pub pid: u64,
    /// The calls that were answered within the turn.
    pub calls: &'a [Call],
    /// The fuel that the process has burnt since its birth.
    pub fuel: u64,
    /// Why the turn ended.
    pub halt: &'a Halt,
    /// What came from outside.
    pub side: &'a Side,
}
