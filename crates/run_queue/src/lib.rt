//! The processes that may run, and those that wait until a deadline.
//!
//! It is seen as the list of the ready processes, the map of the deadlines, and the number of
//! processes for which there is room. All but making room takes no memory.
#![tactic(auto)]

mod deadlines;
mod queue;
#[cfg(test)]
mod tests;

pub use queue::Queue;
