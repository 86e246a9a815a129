//! The node: one state of all processes, with the journal of how it came about.
//!
//! A [`Node`] is seen as its programs, its journal, the two numbers of its terms, and how many entries it may still
//! record. After every call its journal is a run: each life is its program's, and each reply is the one-thread world's.
#![tactic(auto)]

mod answers;
mod closing;
mod letter;
mod mailbox;
mod node;
mod place;
mod taken;
mod times;

pub use letter::Letter;
pub use node::Node;
pub use taken::Taken;
