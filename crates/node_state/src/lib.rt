//! What a node holds, and when that stands for a journal.
//!
//! Nothing here runs. The model is `Held`: at the place of each process number a slot, a mailbox and a deadline, beside
//! them the ready list and what is counted. `StandsFor` says that this is what the world of a journal says, and that the
//! journal is a run; `TurnFits` says when what a worker brings back may be given. `node_laws` shows that each kind of
//! entry keeps a node standing for its journal.
#![tactic(auto)]

mod outcome;

pub use outcome::{Post, Receipt};
