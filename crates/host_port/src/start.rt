ghost use Rattle.std.specs.Prelude.{◌≡◌, IfOk};

use crate::{Bytes, Limits, Params};
use memory_refusal::NoMemory;

/// How a process starts.
#[derive(Debug, Drop)]
pub struct Start {
    /// The number of the process.
    pub pid: u64,
    /// The place of its program in the list of programs, from 0.
    pub module: u32,
    /// The name under which its entry function is exported.
    pub entry: Bytes,
    /// What the entry function is given.
    pub params: Params,
    /// What the process may use.
    pub limits: Limits,
}

impl Start {
    /// The same start once more.
    pub fn try_clone(&self) -> Result<Start, NoMemory>
        ensures { IfOk result (λ copy. copy ≡ self.now) }
    {
        Ok(Start {
            pid: self.pid,
            module: self.module,
            entry: self.entry.try_clone()?,
            params: self.params.try_clone()?,
            limits: self.limits,
        })
    }
}

/// Why a process cannot start, judged in this order.
#[derive(Clone, Copy, Debug, PartialEq, Eq)]
pub enum StartRefusal {
    /// No defined function is exported under the entry's name.
    NoExport,
    /// The entry function has other parameter types.
    BadParams,
    /// The memory begins with more pages than the limits allow.
    PagesOver,
    /// A data or element segment does not lie in its memory or table.
    SegmentOut,
    /// The machine refused memory.
    NoMemory,
}
