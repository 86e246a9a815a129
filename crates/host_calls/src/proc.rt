ghost use Rattle.std.specs.Prelude.{◌≡◌, ◌++◌, ◌≤◌, ◌+◌, [], None, length, IfOk};
ghost use Rattle.message_scratch.specs.Messages.{slots_of, handles_in};
ghost use Rattle.resource_table.specs.Steps.{Sheds, told};
ghost use Rattle.host_calls.specs.Listening.{no_listeners};
ghost use Rattle.host_calls.specs.Shown.{hands_of};

use crate::Listeners;
use host_port::{Ask, Calls, Engine, Start};
use memory_refusal::NoMemory;
use message_scratch::Scratch;
use outside::Outside;
use resource_table::{Resources, Shed};
use std::alloc::Global;
use world_rules::{Halt, Side};

/// A process at home, or in the hands of a worker.
pub struct Proc<E: Engine, O: Outside> {
    /// What executes it.
    pub engine: E,
    /// How it was started.
    pub start: Start,
    /// Its scratch area.
    pub scratch: Scratch<O::Stream>,
    /// Its streams, by their numbers.
    pub table: Resources<O::Stream>,
    /// The streams that its calls closed, on their way out of it.
    pub shed: Shed<O::Stream>,
    /// Its listeners, by their numbers.
    pub listeners: Listeners<O::Listener>,
    /// The bytes that its requests have cost.
    pub traffic: u64,
    /// The fuel that it has burnt since its birth.
    pub fuel: u64,
    /// The ask of a call of the outside that isn't answered yet.
    pub owed: Option<Ask>,
}

impl<E: Engine, O: Outside> Proc<E, O> {
    /// A process at its birth, with an engine at the begin of the run of this start. `NoMemory` comes for want of
    /// memory alone.
    pub fn new(alloc: Global, engine: E, start: Start) -> Result<Proc<E, O>, NoMemory>
        ensures engine { IfOk result (λ proc. proc.engine ≡ engine) }
        ensures start { IfOk result (λ proc. proc.start ≡ start) }
        ensures scratch { IfOk result (λ proc. proc.scratch ≡ None) }
        ensures table { IfOk result (λ proc. proc.table ≡ []) }
        ensures shed { IfOk result (λ proc. proc.shed ≡ []) }
        ensures listeners { IfOk result (λ proc. proc.listeners ≡ no_listeners) }
        ensures traffic { IfOk result (λ proc. proc.traffic ≡ 0) }
        ensures fuel { IfOk result (λ proc. proc.fuel ≡ 0) }
        ensures owed { IfOk result (λ proc. proc.owed ≡ None) }
    {
        let table = Resources::new(alloc)?;
        let shed = match Shed::new(alloc) {
            Ok(shed) => shed,
            Err(NoMemory) => {
                table.destroy_empty();
                return Err(NoMemory);
            }
        };
        let listeners = match Listeners::new(alloc) {
            Ok(listeners) => listeners,
            Err(NoMemory) => {
                table.destroy_empty();
                shed.destroy_empty();
                return Err(NoMemory);
            }
        };
        Ok(Proc {
            engine,
            start,
            scratch: Scratch::new(alloc),
            table,
            shed,
            listeners,
            traffic: 0,
            fuel: 0,
            owed: None,
        })
    }

    /// Ends a process: its streams are shut into its shed, those of its table by rising number, then those of its
    /// scratch message by rising place; its listeners are shut. What is left is the shed.
    pub fn end(self) -> Shed<O::Stream>
        requires room { length self.shed + length (hands_of self) ≤ 320 }
        ensures shed { Sheds (told O.Stream.taken O.Stream.put O.Stream.faults O.Stream.waits O.Stream.empties
            O.Stream.down) (hands_of self) self.shed result }
    {
        let Proc {
            engine: _,
            start: _,
            mut scratch,
            mut table,
            mut shed,
            listeners,
            traffic: _,
            fuel: _,
            owed: _,
        } = self;
        table.drain(&mut shed);
        table.destroy_empty();
        scratch.drain(&mut shed);
        scratch.destroy_empty();
        listeners.shut_all();
        shed
    }
}

/// What a turn brings back.
pub struct Turn<E: Engine, O: Outside> {
    /// The process after the turn.
    pub proc: Proc<E, O>,
    /// The calls that were answered within the turn, in order.
    pub calls: Calls,
    /// Why the turn ended.
    pub halt: Halt,
    /// What came from outside with the halt.
    pub side: Side,
    /// The stream that was opened, if one was.
    pub arrived: Option<O::Stream>,
}
