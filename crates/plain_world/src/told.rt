ghost use Rattle.std.specs.Prelude.{◌≡◌};

use std::marker::Model;

/// A signal with this tag, to this process.
#[derive(Debug, Drop)]
pub struct Told {
    to: u64,
    tag: u64,
}

impl Model for Told {
    ghost use Rattle.world_rules.specs.Links as rules;

    ghost Value = { rules.Told };

    ghost view = { λ a. record { to = a.to; tag = a.tag } };
}

impl Told {
    /// A signal with this tag, to this process.
    pub fn new(to: u64, tag: u64) -> Told
        ensures { result ≡ record { to = to; tag = tag } }
    {
        Told { to, tag }
    }

    /// The process.
    pub fn to(&self) -> u64
        ensures { result ≡ self.now.to }
    {
        self.to
    }

    /// The tag of the link that fell.
    pub fn tag(&self) -> u64
        ensures { result ≡ self.now.tag }
    {
        self.tag
    }
}
