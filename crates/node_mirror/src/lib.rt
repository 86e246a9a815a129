//! That what a node of many processes holds mirrors the world of its journal, step by step.
//!
//! Nothing here runs. `Held` is what a node holds; `Mirrors` says that it is what a world says, also while an entry is
//! performed, of the worlds through which the rules go. For each change of which the rules are made there is a step of
//! the node (`specs/Steps`), and a law that the step keeps the mirror; a node that has made the steps of an entry, and
//! has queued who came home, stands for its journal again.
#![tactic(auto)]

mod allowing;
mod answering;
mod asking;
mod beginning;
mod ending;
mod giving;
mod linking;
mod mailing;
mod recording;
mod telling;
mod ticking;

pub use allowing::a_give_is_allowed;
pub use answering::{a_lateness_mirrors, a_reply_mirrors, a_sleep_mirrors};
pub use asking::{a_name_mirrors, an_unname_mirrors};
pub use beginning::{a_birth_mirrors, first_node_stands};
pub use ending::{
    a_doomed_give_mirrors, a_strike_mirrors, an_end_mirrors, an_over_mirrors, strikes_follow,
};
pub use giving::{
    a_pending_give_mirrors, a_slice_mirrors, an_answer_mirrors, an_ask_mirrors, an_opening_mirrors,
};
pub use linking::{falls_are_members, nets_stay, signals_follow};
pub use mailing::{a_delivery_mirrors, a_sending_mirrors, a_wait_mirrors, an_arrival_mirrors};
pub use recording::{a_take_stands, an_entry_stands, more_room_stands};
pub use telling::{replies_fit, waits_are_answered};
pub use ticking::{a_time_mirrors, deadlines_tell, latenesses_follow};
