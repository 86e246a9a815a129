//! What WebAssembly does, by trees: the configuration of an instance, what one instruction makes of it, how a life
//! begins, and where a run stands after given calls and a number of instructions.
//!
//! Nothing here runs. `begin`, `at` and `may_ask` in `specs/Run.antt` and `specs/Begin.antt` are the meanings that an
//! engine over accepted modules has; their laws are the functions below.
#![tactic(auto)]

mod laws;

pub use laws::{
    accepted_runs_are_never_stuck, one_tree, runs_began_so, runs_go_on, runs_keep_to_their_start,
    typed_runs_go_on,
};
