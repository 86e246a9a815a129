ghost use Rattle.std.specs.Prelude.{◌≡◌};
ghost use Rattle.plain_world.specs.What.{shown_what};

use host_port::Reply;
use std::marker::Model;
use world_rules::End;

/// What reaches a process from outside its own turns.
#[derive(Debug, Drop)]
pub enum PlainWhat {
    /// A message with this tag, these bytes and these slots was delivered to it.
    Delivered(u64, Vec<u8>, Vec<Option<u64>>),
    /// A signal with this tag was delivered to it.
    Signalled(u64),
    /// Its request was answered so.
    Answered(Reply),
    /// A stream was opened for it, and it was answered so.
    Opened(Reply),
    /// An end came to it that is not of its own turn.
    Doomed(End),
    /// Its turn ended for want of memory, after so many calls.
    Starved(u64),
}

/// What arrived, after so many of the process's own turns.
#[derive(Debug, Drop)]
pub struct Arrival {
    turns: u64,
    what: PlainWhat,
}

impl Model for Arrival {
    ghost use Rattle.world_rules.specs.Arrivals as rules;

    ghost Value = { rules.Arrival };

    ghost use Rattle.plain_world.specs.What.{shown_what};

    ghost view = { λ a. record { turns = a.turns; what = shown_what a.what } };
}

impl Arrival {
    /// What arrived after so many turns.
    pub fn new(turns: u64, what: PlainWhat) -> Arrival
        ensures { result ≡ record { turns = turns; what = shown_what what } }
    {
        Arrival { turns, what }
    }
}
