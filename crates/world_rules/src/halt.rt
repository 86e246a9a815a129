use host_port::{Request, Spent};
use wasm_ops::Trap;

/// Why the host ended a process at one of its calls. The call was not performed.
#[derive(Clone, Copy, Debug, PartialEq, Eq)]
pub enum HostFault {
    /// The call needs a message in the scratch area, and there is none.
    NoMessage,
    /// An area of the call passes the end of the memory.
    BadPointer,
    /// The stream is not in the process's own table.
    NoSuchHandle,
    /// No stream stands at this place of the scratch message.
    EmptyPlace,
    /// 64 streams were pushed into the message already.
    PlacesFull,
    /// 256 streams are in the table already.
    TableFull,
    /// The place passes the size of the message.
    BadSeek,
    /// The process has no config of this number.
    NoSuchConfig,
    /// The process has no listener of this number.
    NoSuchListener,
}

/// Why a turn ended.
#[derive(Debug, Drop)]
pub enum Halt {
    /// The turn reached a bound, and the process goes on in a later one.
    Slice,
    /// The process asks for a call that the turn does not answer.
    Asks(Request),
    /// The entry function returned.
    Done,
    /// An instruction trapped.
    Trap(Trap),
    /// A limit of the process was met.
    Spent(Spent),
    /// A call was judged a fault.
    Host(HostFault, Request),
    /// The machine refused memory that the turn needed.
    NoMemory,
    /// The request that could not be answered before was tried again.
    Again,
}

/// How a process ended.
#[derive(Clone, Copy, Debug, PartialEq, Eq)]
pub enum End {
    /// Its entry function returned.
    Done,
    /// An instruction trapped.
    Trap(Trap),
    /// It met a limit of its own.
    Spent(Spent),
    /// One of its calls was judged a fault.
    Host(HostFault),
    /// A process killed it.
    Killed,
    /// A process that it was linked with ended, and it dies with links.
    Linked,
    /// Process 1 ended.
    Closed,
    /// Nothing could happen any more, and it was still waiting.
    Stalled,
    /// The run was idle for too long.
    Idle,
    /// The machine refused memory.
    NoMemory,
}
