ghost use Rattle.std.specs.Prelude.{◌≡◌};
ghost use Rattle.world_rules.specs.World.{Unborn, no_start, fresh_process};
ghost use Rattle.plain_world.specs.Stage.{shown_stage};
ghost use Rattle.plain_world.specs.ShownProcess.{shown_process};

use crate::{Arrival, Mailbox, PlainStage};
use host_port::{Bytes, Calls, Limits, Params, Request, Start};
use plain_part::PlainPart;
use std::alloc::Global;

/// A process.
#[derive(Debug, Drop)]
pub struct PlainProcess {
    /// How it was started.
    pub start: Start,
    /// Where it is.
    pub stage: PlainStage,
    /// What it keeps for itself.
    pub part: PlainPart,
    /// The fuel that it had burnt at its last Give.
    pub fuel: u64,
    /// Its calls that were answered, in order.
    pub calls: Calls,
    /// The request that its next turn tries again.
    pub owed: Option<Request>,
    /// Its mailbox.
    pub mail: Mailbox,
    /// The time at which its wait ends.
    pub deadline: Option<u64>,
    /// It dies with links.
    pub dies: bool,
    /// How many turns it has given back.
    pub gives: u64,
    /// What has arrived from outside its own turns.
    pub arrivals: Vec<Arrival>,
}

impl PlainProcess {
    /// A process with this start, at this stage, that has done nothing yet. It takes no memory yet.
    pub fn fresh(alloc: Global, start: Start, stage: PlainStage) -> PlainProcess
        ensures { shown_process result ≡ fresh_process start (shown_stage stage) }
    {
        PlainProcess {
            start,
            stage,
            part: PlainPart::new(alloc),
            fuel: 0,
            calls: Calls::new(alloc),
            owed: None,
            mail: Mailbox::new(alloc),
            deadline: None,
            dies: true,
            gives: 0,
            arrivals: Vec::new(alloc),
        }
    }

    /// The process of a number that nobody was born with. It takes no memory.
    pub fn unborn(alloc: Global) -> PlainProcess
        ensures { shown_process result ≡ fresh_process no_start Unborn }
    {
        let start = Start {
            pid: 0,
            module: 0,
            entry: Bytes::new(alloc),
            params: Params::new(alloc),
            limits: Limits::new(0, 0, 0),
        };
        PlainProcess::fresh(alloc, start, PlainStage::Unborn)
    }
}
