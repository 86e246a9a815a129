//! What a turn of a process is, for every engine and every host.
//!
//! `specs/Turn.antt` says it over the meaning of the engine and the host's rules for the calls that
//! the turn performs itself; `turns_are_one` is the law that from a point there is one turn.
#![tactic(auto)]

mod turn_laws;

pub use turn_laws::turns_are_one;
