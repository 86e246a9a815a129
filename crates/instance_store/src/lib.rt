//! Instantiation: what a module that starts has before its first instruction.
//!
//! A [`Store`] is seen as the globals, the table, the memory and the functions that are still to be entered. The
//! theorem: [`instantiate`] refuses a start exactly with what the definition of the begin says, or for want of memory,
//! and else makes the instance of the definition.
#![tactic(auto)]

mod constant;
mod entry;
mod globals;
mod instantiation;
mod invocation;
mod laws;
mod memory;
mod params;
mod refusal;
mod segments;
mod sharing;
mod store;
mod table;

pub use instantiation::instantiate;
pub use invocation::Invocation;
pub use laws::accepted_over_the_host_table;
pub use store::Store;

#[cfg(test)]
mod tests;
