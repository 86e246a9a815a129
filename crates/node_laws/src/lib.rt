//! That each kind of entry keeps a node standing for its journal.
//!
//! Nothing here runs. `node_state` says what a node holds (`Held`), when that stands for a journal (`StandsFor`), and
//! what an entry does to it. The theorem is one law for each kind of entry: a node that makes the entry's change to
//! what it holds, and records the entry, stands for its journal again. `laws` has the gives of a process that goes on
//! or ends, `asking` those of a process that asks the world, `networking` those of a process that calls the outside,
//! `timing` the first node, the Take, the Tick and the ends of all; `streaming` ties the very streams to the journal.
#![tactic(auto)]

mod asking;
mod laws;
mod networking;
mod streaming;
mod timing;

pub use asking::{a_receive_keeps, a_send_keeps, a_sleep_keeps, a_sleep_waits_keeps, a_wait_keeps};
pub use laws::{a_doomed_give_keeps, a_slice_keeps, an_end_keeps};
pub use networking::{
    a_pending_give_keeps, an_answer_keeps, an_opening_keeps, outside_replies_fit,
};
pub use streaming::{streams_keep_standing, streams_stand_apart};
pub use timing::{
    a_stall_keeps, a_starve_keeps, a_take_keeps, a_wake_keeps, an_early_tick_keeps, an_idle_keeps,
    deadlines_tell, first_node_stands,
};
