//! The host's calls: what a process keeps for itself beside its engine, the calls that a turn answers, and the turn.
//!
//! A [`Proc`] is seen as a seat of `node_state`, its part by `shown_part`. [`judge`] and [`local`] are the definitions
//! of their names in `world_rules`; [`outside_step`] makes a call of the outside; [`turn`] runs a turn, and what it
//! brings back a node may be given.
#![tactic(auto)]

mod asking;
mod beside;
mod judging;
mod listeners;
mod local_calls;
mod outside_calls;
mod proc;
#[cfg(test)]
mod tests;
mod whole_turn;

pub use beside::comes_with_clock;
pub use judging::{Judgement, judge};
pub use listeners::Listeners;
pub use local_calls::{LocalStep, local};
pub use outside_calls::{OutStep, outside_step};
pub use proc::{Proc, Turn};
pub use whole_turn::turn;
