//! What a step tells of how its machine halted.
ghost use Rattle.std.specs.Prelude.{◌≡◌};
ghost use Rattle.fuel_stepper.specs.Stages.{told};

use flat_machine::Halt;
use host_port::{Spent, Stop};

/// Why a step stopped, whose machine halted so. Where an instruction is to come and the budget reached for it,
/// `reached`, the fuel was not left.
pub(crate) fn told(halt: Halt, reached: bool) -> Stop
    ensures { result ≡ told halt reached }
{
    match halt {
        Halt::Slice => {
            if reached {
                Stop::Spent(Spent::Fuel)
            } else {
                Stop::Slice
            }
        }
        Halt::Asks(ask) => Stop::Asks(ask),
        Halt::Trap(trap) => Stop::Trap(trap),
        Halt::Spent(spent) => Stop::Spent(spent),
        Halt::Overfull => Stop::Spent(Spent::Values),
        Halt::Ends => Stop::Done,
    }
}
