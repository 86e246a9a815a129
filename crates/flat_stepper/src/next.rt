//! What comes after an instruction.
ghost use Rattle.std.specs.Prelude.{◌≡◌};
ghost use Rattle.flat_stepper.specs.Nexts.{next_of};

use crate::{Pause, Spot};

/// What comes after the instruction at hand.
#[derive(Clone, Copy)]
pub enum Next {
    /// It was executed, and the body goes on here.
    Goes(Spot),
    /// It was an end or an else, which costs no fuel, and the body goes on here.
    Passes(Spot),
    /// It isn't executed, and the body stands here. The spot lies where that of the others does, so that the compiler
    /// keeps its numbers in registers.
    Pauses(Spot, Pause),
}

impl Next {
    /// What an instruction at this spot that costs fuel came to.
    #[inline(always)]
    pub fn of(at: Spot, outcome: Result<Spot, Pause>) -> Next
        ensures { result ≡ next_of at outcome }
    {
        match outcome {
            Ok(to) => Next::Goes(to),
            Err(pause) => Next::Pauses(at, pause),
        }
    }
}
