//! A lock that remembers: whoever enters it again finds the value that it left, grown by others' entries alone.
//!
//! The value under the lock has a log, a list of entries that only grows, each made by a numbered
//! maker. A lock is made with n passes, whose numbers go from 0 to n - 1. Contracts see a pass as
//! what it knows (`Knowledge`): the value's base, which never changes, the lock's n, the pass's own
//! number, the numbers that stand in it, and the entries that it has seen.
//!
//! The theorem stands on `LogLock::enter`: the value handed out has the pass's base, its entries
//! begin with all that the pass has seen, and the further ones are of no number that stands in the
//! pass. The rule that carries it is `specs/Rule.antt`.
#![tactic(auto)]

mod joining;
mod knowledge;
mod lock;
mod logged;
mod making;
mod pass;
mod rule;
mod sharing;
mod steps;

pub use logged::Logged;
pub use pass::{Hold, LogLock, Pass, Passes};
