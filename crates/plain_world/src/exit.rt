ghost use Rattle.std.specs.Prelude.{◌≡◌};

use std::marker::Model;
use world_rules::End;

/// The end of a process.
#[derive(Debug, Drop)]
pub struct Exit {
    pid: u64,
    end: End,
}

impl Model for Exit {
    ghost use Rattle.world_rules.specs.World as rules;

    ghost Value = { rules.Exit };

    ghost view = { λ a. record { pid = a.pid; end = a.end } };
}

impl Exit {
    /// This process ended so.
    pub fn new(pid: u64, end: End) -> Exit
        ensures { result ≡ record { pid = pid; end = end } }
    {
        Exit { pid, end }
    }

    /// The process.
    pub fn pid(&self) -> u64
        ensures { result ≡ self.now.pid }
    {
        self.pid
    }

    /// How it ended.
    pub fn end(&self) -> End
        ensures { result ≡ self.now.end }
    {
        self.end
    }
}
