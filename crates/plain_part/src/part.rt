ghost use Rattle.std.specs.Prelude.{◌≡◌, IfOk};
ghost use Rattle.world_rules.specs.Allowed.{listeners_full, handles_full};
ghost use Rattle.world_rules.specs.Part.{no_part};
ghost use Rattle.plain_part.specs.Shown.{shown_part};

use crate::Scratch;
use host_port::Limits;
use memory_refusal::NoMemory;
use std::alloc::Global;

/// How many listeners a process has.
const MOST_LISTENERS: usize = 16;

/// How many streams a table holds.
pub(crate) const MOST_HANDLES: usize = 256;

/// What a process keeps for itself: its scratch message, its streams, its listeners, its configs and its traffic.
#[derive(Debug, Drop)]
pub struct PlainPart {
    /// The scratch message, where there is one.
    pub scratch: Option<Scratch>,
    /// The streams of the table, by rising number.
    pub handles: Vec<u64>,
    /// The listeners.
    pub listeners: Vec<u64>,
    /// The number of the next listener.
    pub next_listener: u64,
    /// The limits of each config, at the place of its number; none where it was dropped.
    pub configs: Vec<Option<Limits>>,
    /// The bytes of traffic.
    pub traffic: u64,
}

impl PlainPart {
    /// What a process has at its birth, and after its end. It takes no memory yet.
    pub fn new(alloc: Global) -> PlainPart
        ensures { shown_part result ≡ no_part }
    {
        PlainPart {
            scratch: None,
            handles: Vec::new(alloc),
            listeners: Vec::new(alloc),
            next_listener: 0,
            configs: Vec::new(alloc),
            traffic: 0,
        }
    }

    /// The same once more.
    pub fn try_clone(&self) -> Result<PlainPart, NoMemory>
        ensures { IfOk result (λ copy. shown_part copy ≡ shown_part self.now) }
    {
        let scratch = match &self.scratch {
            Some(scratch) => Some(scratch.try_clone()?),
            None => None,
        };
        Ok(PlainPart {
            scratch,
            handles: self.handles.clone()?,
            listeners: self.listeners.clone()?,
            next_listener: self.next_listener,
            configs: self.configs.clone()?,
            traffic: self.traffic,
        })
    }

    /// There is no place for one listener more.
    pub fn listeners_full(&self) -> bool
        ensures { result ≡ listeners_full (shown_part self.now) }
    {
        self.listeners.len() >= MOST_LISTENERS
    }

    /// There is no place for one stream more.
    pub fn handles_full(&self) -> bool
        ensures { result ≡ handles_full (shown_part self.now) }
    {
        self.handles.len() >= MOST_HANDLES
    }
}
