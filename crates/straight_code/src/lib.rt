//! The straight instructions of WebAssembly, without branches and calls, on an array of values, a memory and globals.
//!
//! The first `sp` values of the array are a machine's, the last of them on top; its function's locals begin at `base`.
//! There is a helper for each effect, whose contract is the effect on that list, and [`execute`] for the instruction at
//! hand, whose contract is the flat machine's. The theorem: what `execute` leaves is what the definitions of straight
//! code make of each machine that the array shows.
#![tactic(auto)]

mod immediates;
mod memory_access;
mod memory_size;
mod numeric;
mod operands;
mod straight;
mod variables;

pub use memory_access::{load_top, store_top};
pub use memory_size::{grow_top, push_size};
pub use numeric::{binary_top, unary_top};
pub use operands::{drop_top, push, select_top};
pub use straight::{execute, execute_here};
pub use variables::{get_global, get_local, set_global, set_local, tee_local};

#[cfg(test)]
mod tests;
