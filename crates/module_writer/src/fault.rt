ghost use Rattle.std.specs.Prelude.{◌≡◌};

use memory_refusal::NoMemory;
use std::alloc::AllocError;
use thiserror::Error;

/// Why a module isn't written.
#[derive(Clone, Copy, Debug, PartialEq, Eq, Error)]
pub enum WriteFault {
    /// All bytes that spell the module are more than 16,777,216.
    #[error("too large")]
    TooLarge,
    /// The machine has no memory.
    #[error("out of memory")]
    NoMemory,
}

impl From<NoMemory> for WriteFault {
    ghost use Rattle.module_writer.specs.declared.fault.WriteFault.TheVariants as faults;

    ghost from_gives = { λ _ e. e ≡ faults.NoMemory };

    fn from(_refused: NoMemory) -> WriteFault {
        WriteFault::NoMemory
    }
}

impl From<AllocError> for WriteFault {
    ghost use Rattle.module_writer.specs.declared.fault.WriteFault.TheVariants as faults;

    ghost from_gives = { λ _ e. e ≡ faults.NoMemory };

    fn from(_refused: AllocError) -> WriteFault {
        WriteFault::NoMemory
    }
}
