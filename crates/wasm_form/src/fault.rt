ghost use Rattle.std.specs.Prelude.{◌≡◌};

use memory_refusal::NoMemory;
use std::alloc::{AllocError, AllocFailed};
use thiserror::Error;

/// Why parts are no module.
#[derive(Clone, Copy, Debug, PartialEq, Eq, Error)]
pub enum PartsFault {
    /// No bytes spell the parts.
    #[error("no bytes spell these parts")]
    Unmatched,
    /// The machine has no memory.
    #[error("out of memory")]
    NoMemory,
}

impl From<NoMemory> for PartsFault {
    ghost use Rattle.wasm_form.specs.declared.fault.PartsFault.TheVariants as faults;

    ghost from_gives = { λ _ e. e ≡ faults.NoMemory };

    fn from(_refused: NoMemory) -> PartsFault {
        PartsFault::NoMemory
    }
}

impl From<AllocError> for PartsFault {
    ghost use Rattle.wasm_form.specs.declared.fault.PartsFault.TheVariants as faults;

    ghost from_gives = { λ _ e. e ≡ faults.NoMemory };

    fn from(_refused: AllocError) -> PartsFault {
        PartsFault::NoMemory
    }
}

impl<T: Drop> From<AllocFailed<T>> for PartsFault {
    ghost use Rattle.wasm_form.specs.declared.fault.PartsFault.TheVariants as faults;

    ghost from_gives = { λ _ e. e ≡ faults.NoMemory };

    fn from(_refused: AllocFailed<T>) -> PartsFault {
        PartsFault::NoMemory
    }
}
