//! The engine: executes an accepted module, some instructions at a time, and counts them.
//!
//! An [`Instance`] is seen as its module, its flat machine, the fuel that is left and the stage of its life. The
//! theorem: it is an `Engine` of `host_port`, with the runs of `tree_machine` as the meaning of what it does.
#![tactic(auto)]

mod contents;
mod engine;
mod first;
mod instance;
mod stage;
mod telling;

pub use instance::Instance;
pub use stage::{End, Stage};

#[cfg(test)]
mod tests;
