//! The flat machine: what an engine holds that executes the flat list of a body over one array of values, and how that
//! stands for the configurations of `tree_machine`.
//!
//! Nothing here runs: an engine's instructions are to be proved by the laws below.
#![tactic(auto)]

mod call_laws;
mod call_moves;
mod entry_laws;
mod halt;
mod laws;
mod map_laws;
mod run_laws;
mod runs;

pub use call_laws::{calls_find_their_callees, replies_go_on};
pub use call_moves::{calls_are_steps, leaving_agrees, replies_are_taken};
pub use entry_laws::{functions_follow, runs_begin};
pub use halt::Halt;
pub use laws::{
    bodies_stand, branches_agree, calls_agree, ends_cost_nothing, functions_end, lists_begin,
    lists_end, places_are_counted, rules_apply, straight_code_agrees,
};
pub use map_laws::modules_are_mapped;
pub use run_laws::{first_machines_stand, moves_agree, replies_stand, runs_agree};
pub use runs::{runs_are_safe, runs_compose};
