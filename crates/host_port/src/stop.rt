use crate::Ask;
use wasm_ops::Trap;

/// Which limit a process has reached.
#[derive(Clone, Copy, Debug, PartialEq, Eq)]
pub enum Spent {
    /// An instruction was to be executed, and the fuel that it burns was not left.
    Fuel,
    /// A call would have made one frame too many.
    Frames,
    /// More values would have stood than may.
    Values,
    /// The host calls would have moved more bytes than may be moved.
    Traffic,
}

/// Why an engine stopped.
#[derive(Clone, Copy, Debug, PartialEq, Eq)]
pub enum Stop {
    /// An instruction is to come, and the budget does not reach for it.
    Slice,
    /// The process called the host, and waits for the reply.
    Asks(Ask),
    /// The entry function has returned.
    Done,
    /// An instruction trapped.
    Trap(Trap),
    /// A limit was reached.
    Spent(Spent),
}
