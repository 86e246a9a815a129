//! What a node need keep of the world.
//!
//! A node holds less than `world_rules` defines: what a process has while it is out is with its worker, and what has
//! happened stands in the journal. `kept` leaves both out of the world. That suffices: what an entry makes of the rest of
//! the world, and whether it is allowed, is told by what is kept, and by what the giver's worker brings back (`unread`);
//! and a worker brings back what it took (`brings`). The same holds of each
//! change of which the rules are made (`changes_unread`, `calls_unread`).
#![tactic(auto)]

mod changes;
mod laws;

pub use changes::{calls_unread, changes_unread};
pub use laws::{brings, unread};
