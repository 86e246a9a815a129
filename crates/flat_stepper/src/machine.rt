//! A flat machine that runs.
ghost use Rattle.std.specs.Prelude.{◌≡◌, ◌≤◌, length, replicate, [], IfOk, option_copied};
ghost use Rattle.tree_machine.specs.Limits.{most_values};
ghost use Rattle.flat_machine.specs.Halts.{HaltsSo, replied_to};
ghost use Rattle.flat_machine.specs.Runs.{IsSafe};
ghost use Rattle.flat_stepper.specs.Places.{place_of};
ghost use Rattle.flat_machine.specs.Stands.{ReplyFits};

use crate::Place;
use crate::replies::resume;
use crate::runs::run;
use crate::stacks::{MOST_FRAMES, MOST_VALUES, lengthen};
use crate::state::State;
use code_map::CodeMap;
use flat_machine::Halt;
use host_port::Reply;
use instance_store::Store;
use linear_memory::Memory;
use memory_refusal::NoMemory;
use std::alloc::Global;
use std::marker::Model;
use wasm_form::Parts;

/// How many values the array of a new machine has.
const FEW_VALUES: usize = 64;

/// A flat machine. Its values lie in one array, which is reserved for as many values as may be, and grows within that.
#[derive(Drop)]
pub struct Machine {
    state: State,
}

impl Model for Machine {
    ghost use Rattle.flat_machine.specs.Flat.{Flat};

    ghost Value = { Flat };

    ghost use Rattle.flat_stepper.specs.States.{flat_of, IsSound};

    ghost view = { λ s. flat_of s.state };

    ghost invariant = { λ s. IsSound s.state };
}

impl Machine {
    /// The machine before its first function is entered: it stands at `first`, behind the end of a body with so many
    /// results, which are zeros. Of what it may need its arrays are reserved, and little of it is touched.
    pub fn new(
        alloc: Global,
        first: Place,
        results: usize,
        store: Store,
    ) -> Result<Machine, NoMemory>
        requires results { results ≤ 1 }
        requires opens { first.opens ≡ 0 }
        ensures { IfOk result (λ machine. machine ≡ record {
          values = replicate results 0;
          place = place_of first;
          callers = [];
          globals = store.globals;
          table = store.table;
          memory = store.memory;
          invocations = store.invocations;
        }) }
    {
        let mut values = Vec::with_capacity(alloc, MOST_VALUES)?;
        values.resize(FEW_VALUES, 0)?;
        let callers = Vec::with_capacity(alloc, MOST_FRAMES - 1)?;
        let (globals, table, memory, invocations) = store.into_parts();
        let (memory, has_memory) = match memory {
            Some(memory) => (memory, true),
            None => (Memory::new(alloc, 0, 0)?, false),
        };
        Ok(Machine {
            state: State {
                values,
                sp: results,
                place: first,
                callers,
                globals,
                table,
                memory,
                has_memory,
                invocations,
                entered: 0,
            },
        })
    }

    /// Executes at most `budget` instructions, and tells why it halts and how many they were. Ends, returns and the
    /// entry of the next function cost nothing, and are passed with no budget too. It takes no memory.
    pub fn run(&mut self, parts: &Parts, map: &CodeMap, budget: u64) -> (Halt, u64)
        requires safe { IsSafe parts.now map.now self.old }
        requires mapped { length parts.now.bodies ≤ length map.now.bodies }
        ensures within { result.1 ≤ budget }
        ensures halts { HaltsSo parts.now map.now result.0 budget result.1 self.old self.new }
    {
        run(&mut self.state, parts, map, budget)
    }

    /// Goes on from the reply to the ask at which it halted: its text and its word are written, and its result comes on
    /// top.
    pub fn resume(&mut self, reply: &Reply)
        requires { ReplyFits reply.now self.old }
        ensures { self.new ≡ replied_to reply.now self.old }
    {
        resume(&mut self.state, reply);
    }

    /// The memory, if there is one.
    pub fn memory(&self) -> Option<&Memory>
        ensures { option_copied result ≡ self.now.memory }
    {
        if self.state.has_memory {
            Some(&self.state.memory)
        } else {
            None
        }
    }
}
