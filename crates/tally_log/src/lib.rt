//! A tally whose log is a list, kept by several workers under one lock that remembers.
//!
//! It is the proved user of `log_lock`. A `Tally` has a start, which never changes, and a list of
//! entries, each an amount and the number of the worker that entered it.
//!
//! The theorem stands on `run_workers`: where it answers a tally, each worker's entries in it are
//! exactly the plan's amounts, in their order, however the threads took turns.
#![tactic(auto)]

mod adding;
mod tally;
#[cfg(test)]
mod tests;
mod workers;

pub use adding::{add, add_all, add_in_turn};
pub use tally::{Entry, Tally};
pub use workers::{Plan, run_workers};
