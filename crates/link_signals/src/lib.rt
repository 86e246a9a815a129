//! Links between processes: who falls with a process, and which signals that brings.
//!
//! It is seen as the processes with whether each dies with links, the tag of each link, who fell in
//! the last fall, and the signals of it that are still to be given. Those who fall are the least
//! set that holds the first process and each process that is linked with a member and dies with
//! links.
#![tactic(auto)]

mod fall;
mod link_ends;
mod links;
mod pending;
mod signal;
#[cfg(test)]
mod tests;

pub use links::Links;
pub use signal::Signal;
