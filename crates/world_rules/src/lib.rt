//! The rules of the world: many processes, all host calls, as one thread would perform them.
//!
//! Here stand the types of a journal's entries and, in `specs/`, every definition of the world: what a process keeps for
//! itself, how a request is judged, what each call answers, which entries are allowed, what an entry makes of the world,
//! what a whole journal tells, and the text that it determines. There is no code beside the types; what is
//! proved of the definitions stands in `laws`, `touching`, `soundness`, `placing`, `waiting`,
//! `queueing` and `falling`.
#![tactic(auto)]

mod entry;
mod falling;
mod halt;
mod laws;
mod life;
mod placing;
mod queueing;
mod soundness;
mod touching;
mod waiting;

pub use entry::{Entry, Side};
pub use falling::falls_are_least;
pub use halt::{End, Halt, HostFault};
pub use laws::{allowed_untested, carry, next_extends, told_extends};
pub use life::{Birth, Ended};
pub use placing::{placed, streams_stay};
pub use queueing::first_come;
pub use soundness::{sound, told_carries};
pub use touching::touches;
pub use waiting::waits_are_unmet;
