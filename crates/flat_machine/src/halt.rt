use host_port::{Ask, Spent};
use wasm_ops::Trap;

/// Why a flat machine halts.
#[derive(Clone, Copy, Debug, PartialEq, Eq)]
pub enum Halt {
    /// The budget is used up, and an instruction is to come.
    Slice,
    /// The host is asked.
    Asks(Ask),
    /// An instruction trapped.
    Trap(Trap),
    /// An instruction passed a limit.
    Spent(Spent),
    /// The values of the next function would pass their limit; it was not entered.
    Overfull,
    /// No function is left.
    Ends,
}
