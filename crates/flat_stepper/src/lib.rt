//! The flat machine that runs: it executes flat code over one array of values, and takes no memory while it runs.
//!
//! A [`Machine`] is seen as the flat machine of `flat_machine`. The theorem is that of [`Machine::run`]: what it executes is
//! a run of that machine, by as many instructions as it says, and it halts as that machine does. [`run_body`] is the
//! inner loop over one function's body: it pauses only where the budget is used up, the body is over, a call comes, the
//! values have no room left, or an instruction traps.
#![tactic(auto)]

mod body;
mod branches;
mod calls;
mod ends;
mod machine;
mod next;
mod place;
mod raises;
mod replies;
mod runs;
mod stacks;
mod state;
mod step;
mod turn;
mod within;

pub use body::run_body;
pub use machine::Machine;
use next::Next;
pub use place::Place;
pub use turn::{Pause, Turn};
use within::{Spot, Within};
