ghost use Rattle.std.specs.Prelude.{◌≡◌};
ghost use Rattle.fuel_stepper.specs.Stages.{stop_at, stage_after, stage_behind, is_end, is_at_end};

use flat_machine::Halt;
use host_port::{Ask, Spent, Stop};

/// How a run has ended that the next step tells.
#[derive(Clone, Copy, Debug, PartialEq, Eq)]
pub enum End {
    /// The entry function has returned.
    Returned,
    /// The next function's values would have been more than may stand.
    Overfull,
}

impl End {
    /// What the next step tells of it.
    pub(crate) fn stop(self) -> Stop
        ensures { result ≡ stop_at self }
    {
        match self {
            End::Returned => Stop::Done,
            End::Overfull => Stop::Spent(Spent::Values),
        }
    }
}

/// Where the life of an instance stands.
#[derive(Clone, Copy, Debug, PartialEq, Eq)]
pub enum Stage {
    /// An instruction is to come.
    Ready,
    /// The reply to this ask is owed.
    Asking(Ask),
    /// The run has ended, and no step has told it yet.
    Ended(End),
    /// A step has told the end of the life: it stopped so.
    Over(Stop),
}

impl Stage {
    /// Where a life stands after a step that stopped so.
    pub(crate) fn after(stop: Stop) -> Stage
        ensures { result ≡ stage_after stop }
    {
        match stop {
            Stop::Slice => Stage::Ready,
            Stop::Asks(ask) => Stage::Asking(ask),
            Stop::Done | Stop::Trap(_) | Stop::Spent(_) => Stage::Over(stop),
        }
    }

    /// Where a life stands whose machine has made its exits and halted so.
    pub(crate) fn behind(halt: Halt) -> Stage
        ensures { result ≡ stage_behind halt }
    {
        match halt {
            Halt::Slice => Stage::Ready,
            Halt::Asks(ask) => Stage::Asking(ask),
            Halt::Trap(trap) => Stage::Over(Stop::Trap(trap)),
            Halt::Spent(spent) => Stage::Over(Stop::Spent(spent)),
            Halt::Overfull => Stage::Ended(End::Overfull),
            Halt::Ends => Stage::Ended(End::Returned),
        }
    }

    /// The run is at its end with nothing owed and no trap.
    pub(crate) fn is_at_end(&self) -> bool
        ensures { result ≡ is_at_end self.now }
    {
        match self {
            Stage::Ready | Stage::Asking(_) => false,
            Stage::Ended(_) => true,
            Stage::Over(stop) => is_end(*stop),
        }
    }
}

/// A run that stopped so is at its end.
fn is_end(stop: Stop) -> bool
    ensures { result ≡ is_end stop }
{
    match stop {
        Stop::Done | Stop::Spent(Spent::Values) => true,
        Stop::Slice | Stop::Asks(_) | Stop::Trap(_) | Stop::Spent(_) => false,
    }
}
