ghost use Rattle.std.specs.Prelude.{◌≡◌};
ghost use Rattle.module_validator.specs.Answers.{verdict_of};

use memory_refusal::NoMemory;

/// Where a module is invalid.
#[derive(Clone, Copy, Debug, PartialEq, Eq)]
pub enum Place {
    /// The rule of modules with this number, from 1 to 11: the least that is broken.
    Rule(u8),
    /// The body at this place, from 0: the first that isn't typed. No rule is broken.
    Function(u32),
}

/// What is said of the bytes of a module.
#[derive(Clone, Copy, Debug, PartialEq, Eq)]
pub enum Verdict {
    /// They spell no module.
    Malformed,
    /// The rule of the profile with this number, from 1 to 9: the least that is broken.
    Outside(u8),
    /// The module is inside the profile and invalid at this place.
    Invalid(Place),
    /// The module is inside the profile and valid.
    Accepted,
}

/// Why a module isn't accepted.
#[derive(Clone, Copy, Debug, PartialEq, Eq)]
pub enum Refused {
    /// The rule of the profile with this number, from 1 to 9: the least that is broken.
    Outside(u8),
    /// The module is inside the profile and invalid at this place.
    Invalid(Place),
    /// The machine has no memory.
    NoMemory,
}

impl Refused {
    /// The verdict on the module; None for want of memory.
    pub fn verdict(&self) -> Option<Verdict>
        ensures { result ≡ verdict_of self.now }
    {
        match self {
            Refused::Outside(rule) => Some(Verdict::Outside(*rule)),
            Refused::Invalid(place) => Some(Verdict::Invalid(*place)),
            Refused::NoMemory => None,
        }
    }
}

impl From<NoMemory> for Refused {
    ghost use Rattle.module_validator.specs.declared.answer.Refused.TheVariants as refused;

    ghost from_gives = { λ _ e. e ≡ refused.NoMemory };

    fn from(_refused: NoMemory) -> Refused {
        Refused::NoMemory
    }
}
